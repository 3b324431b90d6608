// What a request to the probe brings on standard input: its numbers and its byte strings.
#![tactic(auto)]

ghost use Rattle.std.specs.Prelude.{◌≤◌};

// What a request asks for: its first byte is the number.
#[derive(Clone, Copy, Debug, PartialEq, Eq)]
pub enum Function {
    Header = 1,
    OfType = 2,
    Map = 3,
    Name = 4,
    NameOfTwo = 5,
    Text = 6,
    Position = 7,
    Media = 8,
    Check = 9,
    Seek = 10,
    Build = 11,
    Lookup = 12,
    WriteLocator = 13,
    WriteMap = 14,
    Walk = 15,
}

// A byte that is no function's number.
#[derive(Clone, Copy, Debug, PartialEq, Eq)]
pub struct NoFunction(pub u8);

impl TryFrom<u8> for Function {
    type Error = NoFunction;

    fn try_from(n: u8) -> Result<Self, NoFunction> {
        match n {
            1 => Ok(Function::Header),
            2 => Ok(Function::OfType),
            3 => Ok(Function::Map),
            4 => Ok(Function::Name),
            5 => Ok(Function::NameOfTwo),
            6 => Ok(Function::Text),
            7 => Ok(Function::Position),
            8 => Ok(Function::Media),
            9 => Ok(Function::Check),
            10 => Ok(Function::Seek),
            11 => Ok(Function::Build),
            12 => Ok(Function::Lookup),
            13 => Ok(Function::WriteLocator),
            14 => Ok(Function::WriteMap),
            15 => Ok(Function::Walk),
            _ => Err(NoFunction(n)),
        }
    }
}

impl Function {
    // How many bytes its numbers take.
    pub fn numbers(self) -> usize
        ensures { result ≤ 24 }
    {
        match self {
            Function::Text | Function::Check => 0,
            Function::Header
            | Function::NameOfTwo
            | Function::Media
            | Function::Build
            | Function::Walk => 8,
            Function::OfType
            | Function::Map
            | Function::Name
            | Function::Position
            | Function::Seek
            | Function::Lookup
            | Function::WriteMap => 16,
            Function::WriteLocator => 24,
        }
    }
}

// The k-th number.
pub fn word(head: &[u8; 24], k: usize) -> u64 {
    if k < 3 {
        return number::le_at(head, 8 * k, 8) as u64;
    }
    0
}

// A byte string's length; none where it is over 65,536 or the input ends.
fn length() -> Option<usize> {
    let mut head = [0u8; 4];
    if console::take(&mut head) < 4 {
        return None;
    }
    let n = number::le_at(&head, 0, 4);
    if 65536 < n { None } else { Some(n) }
}

// A byte string, read into a lent buffer; none where its length is over 65,536 or the buffer's, or the input ends.
pub fn string(buffer: &mut [u8]) -> Option<&[u8]> {
    let n = length()?;
    if buffer.len() < n {
        return None;
    }
    if console::take(&mut buffer[..n]) < n {
        return None;
    }
    Some(&buffer[..n])
}
