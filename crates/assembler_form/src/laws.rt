//! The laws of choosing a row.
ghost use Rattle.assembler_form.specs.FormLaws.{OneForm};

/// What a line asks of the encoding table has at most one form. The proof that a source gives at most one image rests
/// on it.
pub fn one_form()
    ensures { OneForm }
{}
