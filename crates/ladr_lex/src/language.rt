// The language that a text is in.

/// LADR's own language, or that of TPTP.
#[derive(Clone, Copy)]
pub enum Language {
    Ladr,
    Tptp,
}
