#![tactic(auto)]

ghost use Rattle.std.specs.Prelude.{◌≡◌, ◌≤◌, nat_abs, length};
ghost use Rattle.answers.specs.Answers.{number, refusal_number};
ghost use Rattle.answers.specs.Bad.{bad_depth, retired, bad_size, bad_side, bad_lossless, bad_tx_type, any_beyond};
ghost use Rattle.answers.specs.Sizes.{side, area};

// Why a call or the VBK reader refuses what it is given, in the order of the numbers, 1 to 20.
#[derive(Clone, Copy, Debug, PartialEq, Eq)]
pub enum Refusal {
    Depth,
    Size,
    LosslessSize,
    TxType,
    Quantizer,
    Length,
    Plane,
    Token,
    Coefficient,
    Mark,
    Version,
    CutShort,
    TooLarge,
    LosslessByte,
    Report,
    Place,
    Room,
    Narrow,
    Rule,
    Retired,
}

// The answer of a call: done, or refused.
pub type Answer = Result<(), Refusal>;

// Magnitude of dequantized values, of the 2D driver's input and of the quantizer's.
pub const COEF_LIMIT: u64 = 2147483648;

// Magnitude of the forward WHT's input.
pub const WHT_LIMIT: u64 = 8388608;

// A quantizer is 1 to this.
pub const QUANT_LIMIT: i32 = 32767;

// Width, height and stride of a plane.
pub const SIDE_LIMIT: usize = 65535;

// Bytes of a VBK file.
pub const FILE_LIMIT: usize = 65535;

// Width times height of a VBK file's plane.
pub const AREA_LIMIT: usize = 4096;

// Numbers that the quantizer takes.
pub const LIST_LIMIT: usize = 1024;

// The number of a refusal.
impl From<Refusal> for u32 {
    ghost from_gives = { λ refusal n. n ≡ refusal_number refusal };

    fn from(refusal: Refusal) -> u32 {
        match refusal {
            Refusal::Depth => 1,
            Refusal::Size => 2,
            Refusal::LosslessSize => 3,
            Refusal::TxType => 4,
            Refusal::Quantizer => 5,
            Refusal::Length => 6,
            Refusal::Plane => 7,
            Refusal::Token => 8,
            Refusal::Coefficient => 9,
            Refusal::Mark => 10,
            Refusal::Version => 11,
            Refusal::CutShort => 12,
            Refusal::TooLarge => 13,
            Refusal::LosslessByte => 14,
            Refusal::Report => 15,
            Refusal::Place => 16,
            Refusal::Room => 17,
            Refusal::Narrow => 18,
            Refusal::Rule => 19,
            Refusal::Retired => 20,
        }
    }
}

// The answer's number: 0 where the call is done.
pub fn code(answer: Answer) -> u32
    ensures { result ≡ number answer }
{
    match answer {
        Ok(()) => 0,
        Err(refusal) => u32::from(refusal),
    }
}

// The magnitude, of the least i64 too.
pub fn magnitude(t: i64) -> u64
    ensures { result ≡ nat_abs t }
{
    t.unsigned_abs()
}

// n0, the numbers of a row; n is the size number plus 2.
pub fn side(n: u32) -> usize
    requires { (2 ≤ n) × (n ≤ 5) }
    ensures { (result ≡ side n) × (result ≤ 32) }
{
    match n {
        2 => 4,
        3 => 8,
        4 => 16,
        _ => 32,
    }
}

// n0², the numbers of a block.
pub fn area(n: u32) -> usize
    requires { (2 ≤ n) × (n ≤ 5) }
    ensures { (result ≡ area n) × (result ≤ 1024) }
{
    match n {
        2 => 16,
        3 => 64,
        4 => 256,
        _ => 1024,
    }
}

// The depth is not 8, 10 or 12.
pub fn bad_depth(depth: u32) -> bool
    ensures { result ≡ bad_depth depth }
{
    !matches!(depth, 8 | 10 | 12)
}

// The depth is 12, which is read and no longer written.
pub fn retired(depth: u32) -> bool
    ensures { result ≡ retired depth }
{
    depth == 12
}

// The size number is above 3.
pub fn bad_size(size: u32) -> bool
    ensures { result ≡ bad_size size }
{
    3 < size
}

// n is outside 2 to 5.
pub fn bad_side(n: u32) -> bool
    ensures { result ≡ bad_side n }
{
    n < 2 || 5 < n
}

// Lossless with a size other than 4 by 4.
pub fn bad_lossless(lossless: bool, size: u32) -> bool
    ensures { result ≡ bad_lossless lossless size }
{
    lossless && size != 0
}

// Not lossless, and a type above 3, or 32 by 32 with a type other than 0.
pub fn bad_tx_type(lossless: bool, size: u32, tx_type: u8) -> bool
    ensures { result ≡ bad_tx_type lossless size tx_type }
{
    !lossless && (3 < tx_type || size == 3 && tx_type != 0)
}

// Of the first `count` numbers, some magnitude is above `most`.
pub fn any_beyond(list: &[i64], count: usize, most: u64) -> bool
    requires { count ≤ length list.now }
    ensures { result ≡ any_beyond most count list.now }
{
    list[..count].iter().any(|t| most < magnitude(*t))
}
