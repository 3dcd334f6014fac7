//! Reserved words.
use crate::token::Kind;

/// The reserved words of at most eight letters, behind zeros.
static WORDS: [(&'static [u8; 8], Kind); 42] = [
    (b"\0\0\0break", Kind::Break),
    (b"\0\0\0\0case", Kind::Case),
    (b"\0\0\0catch", Kind::Catch),
    (b"\0\0\0class", Kind::Class),
    (b"\0\0\0const", Kind::Const),
    (b"continue", Kind::Continue),
    (b"debugger", Kind::Debugger),
    (b"\0default", Kind::Default),
    (b"\0\0delete", Kind::Delete),
    (b"\0\0\0\0\0\0do", Kind::Do),
    (b"\0\0\0\0else", Kind::Else),
    (b"\0\0export", Kind::Export),
    (b"\0\0\0false", Kind::False),
    (b"\0finally", Kind::Finally),
    (b"\0\0\0\0\0for", Kind::For),
    (b"function", Kind::Function),
    (b"\0\0\0\0\0\0if", Kind::If),
    (b"\0\0import", Kind::Import),
    (b"\0\0\0\0\0\0in", Kind::In),
    (b"\0\0\0\0\0let", Kind::Let),
    (b"\0\0\0\0\0new", Kind::New),
    (b"\0\0\0\0null", Kind::Null),
    (b"\0\0return", Kind::Return),
    (b"\0\0\0super", Kind::Super),
    (b"\0\0switch", Kind::Switch),
    (b"\0\0\0\0this", Kind::This),
    (b"\0\0\0throw", Kind::Throw),
    (b"\0\0\0\0true", Kind::True),
    (b"\0\0\0\0\0try", Kind::Try),
    (b"\0\0typeof", Kind::TypeOf),
    (b"\0\0\0\0\0var", Kind::Var),
    (b"\0\0\0\0void", Kind::Void),
    (b"\0\0\0while", Kind::While),
    (b"\0\0\0\0with", Kind::With),
    (b"\0\0\0await", Kind::Reserved),
    (b"\0\0\0\0enum", Kind::Reserved),
    (b"\0extends", Kind::Reserved),
    (b"\0package", Kind::Reserved),
    (b"\0private", Kind::Reserved),
    (b"\0\0public", Kind::Reserved),
    (b"\0\0static", Kind::Reserved),
    (b"\0\0\0yield", Kind::Reserved),
];

/// The number of the word, from `0` on, that has this hash. Where none has, it is past all.
static NUMBERS: [u8; 128] = *b"\
    ~A~~9~~N~XRQ~D~~5GSM~3~K>~1~~2IB\
    U~~~~~~~;~~E~W~P~~~~?~~~7~~JY~~~\
    ~~~~:~~~~~L=C~~~~~~~~~~~0~~~~~~F\
    T~~~~VH~~8~4~O~~~~~~<~~~~6~@~~~~";

/// It gives each word a hash of its own.
const FACTOR: u64 = 0x849e_7d34_a6a3_8669;

/// What a word of at most eight letters is, given by the number whose last bytes, in memory, are its letters.
#[inline(always)]
pub(crate) fn kind_of_short(word: u64) -> Kind {
    let hash = word.wrapping_mul(FACTOR) >> 57;
    let number = NUMBERS.get(hash as usize).copied().unwrap_or(0);
    match WORDS.get(usize::from(number.wrapping_sub(b'0'))) {
        Some((text, kind)) if u64::from_le_bytes(**text) == word => *kind,
        _ => Kind::Name,
    }
}

/// What a word of more letters is.
#[inline(never)]
pub(crate) fn kind_of_long(word: &[u8]) -> Kind {
    match word {
        b"instanceof" => Kind::InstanceOf,
        b"implements" | b"interface" | b"protected" => Kind::Reserved,
        _ => Kind::Name,
    }
}
