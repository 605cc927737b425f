// How lines are read.

// Crate mode reads as lexer.rs does. wwPDB mode reads as the standard prints it, where three rules differ: the end of a DBREF1, the serial of
// a MODEL, and an ENDMDL of six bytes.
#[derive(Clone, Copy)]
pub enum Mode {
    Crate,
    WwPdb,
}

// Atoms only makes every kind EMPTY but ATOM, HETATM, MODEL, ENDMDL, TER and END. Loose lets long remarks pass. Exponents lets a real have one.
#[derive(Clone, Copy)]
pub struct Options {
    pub atoms: bool,
    pub loose: bool,
    pub mode: Mode,
    pub exponents: bool,
}

impl Options {
    // All kinds, not loose, in crate mode, without exponents.
    pub const PLAIN: Options = Options {
        atoms: false,
        loose: false,
        mode: Mode::Crate,
        exponents: false,
    };
}
