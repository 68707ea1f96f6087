// Where a byte of a text stands, for people.
ghost use Rattle.std.specs.Prelude.{◌≡◌, ◌≤◌, length};
ghost use Rattle.ladr_lex.specs.Places.{line_of, column_of};

/// A place of a text: the byte from 0, its line and its column in bytes from 1.
#[derive(Clone, Copy)]
pub struct Position {
    pub byte: u64,
    pub line: u64,
    pub column: u64,
}

/// The place of a byte, or of the end of the text.
pub fn place_of(bytes: &[u8], byte: usize) -> Position
    requires { byte ≤ length bytes.now }
    ensures byte { result.byte ≡ byte }
    ensures line { result.line ≡ line_of bytes.now byte }
    ensures column { result.column ≡ column_of bytes.now byte }
{
    let mut line = 1;
    let mut column = 1;
    for before in &bytes[..byte] {
        if *before == b'\n' {
            line += 1;
            column = 1;
        } else {
            column += 1;
        }
    }
    Position {
        byte: byte as u64,
        line,
        column,
    }
}
