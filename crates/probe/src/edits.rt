//! Changes of registers and of bytes, made of a board or of a session as it stands.
ghost use Rattle.std.specs.Prelude.{◌≡◌, ◌+◌, ◌≤◌, ◌^◌, length};
ghost use Rattle.board_plain.specs.Plain.{clock_of};
ghost use Rattle.debugger_meaning.specs.Stands.{shown_of};
ghost use Rattle.probe.specs.Lab.{edited, have_cells, takes_edit, with_bytes};
ghost use Rattle.probe_texts.specs.Wishes.{HasPlaces};

use board::board::Board;
use board_plain::change::Change;
use debugger::session::Session;
use probe_texts::wishes::Edit;

/// Whether a board can be changed so: each byte needs a cell in RAM, text memory or ROM.
pub(crate) fn takes_edit(board: &Board, edit: &Edit) -> bool
    requires { HasPlaces edit.now }
    ensures { result ≡ takes_edit edit.now board.now.plain }
{
    match edit {
        Edit::Register(..) => true,
        Edit::Bytes(address, bytes) => have_cells(board, *address, bytes.as_slice()),
    }
}

/// Whether each of these bytes, from an address on, has a cell.
#[tactic(auto, unfolding(board_plain::specs::Changes::takes))]
fn have_cells(board: &Board, address: u32, bytes: &[u8]) -> bool
    requires { address + length bytes.now ≤ 2 ^ 20 }
    ensures { result ≡ have_cells address bytes.now board.now.plain }
{
    let (mut at, mut rest) = (address, bytes);
    while let [byte, after @ ..] = rest {
        if !board.takes(&Change::Byte(at, *byte)) {
            return false;
        }
        at += 1;
        rest = after;
    }
    true
}

/// Makes a change of a board as it stands.
pub(crate) fn edit_board(board: &mut Board, edit: &Edit)
    requires { HasPlaces edit.now }
    ensures { board.new ≡ record board.old { plain = edited edit.now board.old.plain } }
{
    match edit {
        Edit::Register(register, word) => board.change(&Change::Register(*register, *word)),
        Edit::Bytes(address, bytes) => put_bytes(board, *address, bytes.as_slice()),
    }
}

/// Puts bytes into a board's cells, from an address on.
fn put_bytes(board: &mut Board, address: u32, bytes: &[u8])
    requires { address + length bytes.now ≤ 2 ^ 20 }
    ensures { board.new ≡ record board.old { plain = with_bytes address bytes.now board.old.plain } }
{
    let (mut at, mut rest) = (address, bytes);
    while let [byte, after @ ..] = rest {
        board.change(&Change::Byte(at, *byte));
        at += 1;
        rest = after;
    }
}

/// Makes a change of a session that stands at its first clock, as if it had begun with it.
pub(crate) fn edit_session(session: &mut Session, edit: &Edit)
    requires places { HasPlaces edit.now }
    requires start { clock_of session.old.board.plain ≡ clock_of session.old.first.plain }
    ensures board { session.new.board
        ≡ record session.old.board { plain = edited edit.now session.old.board.plain } }
    ensures first { session.new.first ≡ shown_of session.new.board }
    ensures stops { session.new.stops ≡ session.old.stops }
{
    match edit {
        Edit::Register(register, word) => session.change(&Change::Register(*register, *word)),
        Edit::Bytes(address, bytes) => {
            if let [byte, rest @ ..] = bytes.as_slice() {
                session.change(&Change::Byte(*address, *byte));
                put_more(session, *address + 1, rest);
            }
        }
    }
}

/// Puts further bytes, from an address on, into the cells of a session that begins with its board as it stands.
fn put_more(session: &mut Session, address: u32, bytes: &[u8])
    requires places { address + length bytes.now ≤ 2 ^ 20 }
    requires start { session.old.first ≡ shown_of session.old.board }
    ensures board { session.new.board
        ≡ record session.old.board { plain = with_bytes address bytes.now session.old.board.plain } }
    ensures first { session.new.first ≡ shown_of session.new.board }
    ensures stops { session.new.stops ≡ session.old.stops }
{
    let (mut at, mut rest) = (address, bytes);
    while let [byte, after @ ..] = rest {
        session.change(&Change::Byte(at, *byte));
        at += 1;
        rest = after;
    }
}
