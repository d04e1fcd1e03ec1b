//! Reads of bytes over memory.
use crate::pieces::Pieces;
use anyhow::{Context, Result, ensure};
use std::alloc::{AllocError, Global};
use streams::byte_input::{ReadFault, read_all};

/// How many bytes `read_all` asks for at once.
const PIECE: usize = 4096;

/// The answer to a `read:` case: how many bytes are read, and by how many reads. Fails if one of these reads, made to
/// fail, doesn't get the whole refused.
pub fn answer_to(alloc: Global, text: &str) -> Result<String> {
    let (size, most, limit) = numbers(text).context("no numbers")?;
    let bytes = counted(alloc, size)?;
    let (count, reads) = judge_reads(alloc, bytes.as_slice(), most as usize, limit)?;
    Ok(format!(in alloc; "{count} {reads}")?)
}

/// Counts the bytes read and the reads of a `read:` case, and then makes each of these reads fail in turn.
fn judge_reads(alloc: Global, bytes: &[u8], most: usize, limit: u64) -> Result<(usize, u64)> {
    let (count, reads) = count_reads(alloc, bytes, most, limit)?;
    for failing in 0..reads {
        judge_failure(alloc, bytes, most, limit, failing)?;
    }
    Ok((count, reads))
}

/// The three numbers `SIZE MOST LIMIT` of a `read:` case; `None` if one can't be read.
fn numbers(text: &str) -> Option<(u64, u64, u64)> {
    let mut words = text.split(' ');
    let size = words.next()?.parse().ok()?;
    let most = words.next()?.parse().ok()?;
    let limit = words.next()?.parse().ok()?;
    Some((size, most, limit))
}

/// How many of the bytes `read_all` reads, at most `limit`, and by how many reads, if none fails; each gives at most
/// `most`.
fn count_reads(alloc: Global, bytes: &[u8], most: usize, limit: u64) -> Result<(usize, u64)> {
    let mut input = Pieces::new(bytes, most, u64::MAX);
    let read = read_all(alloc, &mut input, limit)?;
    ensure!(bytes.starts_with(read.as_slice()), "other bytes");
    let reads = u64::MAX.saturating_sub(input.reads_left());
    Ok((read.len(), reads))
}

/// `size` bytes for a case to read, chosen so that any shift would change them.
fn counted(alloc: Global, size: u64) -> Result<Vec<u8>, AllocError> {
    let mut bytes = Vec::new(alloc);
    for i in 0..size {
        bytes.push((i % 251) as u8)?;
    }
    Ok(bytes)
}

/// Fails if the read after the first `reads` fails and `read_all` doesn't refuse the whole, or takes bytes after that.
fn judge_failure(alloc: Global, bytes: &[u8], most: usize, limit: u64, reads: u64) -> Result<()> {
    let mut input = Pieces::new(bytes, most, reads);
    let read = read_all(alloc, &mut input, limit);
    ensure!(matches!(&read, Err(ReadFault::Failed)), "not refused");
    let taken = reads.saturating_mul(most.min(PIECE) as u64);
    let left = (bytes.len() as u64).saturating_sub(taken);
    ensure!(
        input.rest().len() as u64 == left,
        "another number of bytes taken"
    );
    Ok(())
}
