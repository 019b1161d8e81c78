ghost use Rattle.std.specs.Prelude.{◌≡◌, ◌+◌, ◌*◌, ◌^◌, ◌<◌, ◌≤◌, ◌/◌, ◌%◌, ℤ, pos, negsuc, ◌≤ℤ◌, ◌<ℤ◌, Ok, IfOk};
ghost use Rattle.pa_pac.specs.Key.{key_number};
ghost use Rattle.pa_fixups.specs.Slots.{bit, low_bits, signed_bits, key_of, sig_at, FieldsFit, SigFits, packed, parts_of, slot_of, IsWordOf};

use crate::kind::{FixKind, Sig};
use pa_num::{Field, ImageRule};
use pa_pac::Key;

/// The forms of a slot in pointer format 1: the values of its bits `bind` and `auth`, its field that has to be zero, and its
/// other fields, each with its lowest bit, its width and how its number is spelled. All have the link in bits 51 to 61, `bind`
/// in bit 62 and `auth` in bit 63.
macro_rules! forms {
    ($make:ident $given:tt) => {
        $make! { $given
            Rebase (false, false) zero [] { target 0 43 (u64), high8 43 8 (u8) }
            Bind (true, false) zero [16 16] { ordinal 0 16 (u16), addend 32 19 (Addend) }
            AuthRebase (false, true) zero [] { target 0 32 (u32), sig 32 19 (Sig) }
            AuthBind (true, true) zero [16 16] { ordinal 0 16 (u16), sig 32 19 (Sig) }
        }
    };
}

macro_rules! bits_of {
    (Addend $value:expr) => { addend_bits($value) };
    (Sig $value:expr) => { sig_bits($value) };
    ($number:ident $value:expr) => { u64::from($value) };
}

macro_rules! value_of {
    (Addend $bits:expr) => { addend_of($bits) };
    (Sig $bits:expr) => { sig_of($bits) };
    ($number:ident $bits:expr) => { $bits as $number };
}

macro_rules! written {
    (($kind:expr, $next:expr) $($form:ident ($bind:literal, $auth:literal) zero [$($zero:literal $zeros:literal)?] { $($name:ident $low:literal $width:literal ($spelling:ident)),* })*) => {
        match $kind {
            $(FixKind::$form { $($name),* } => {
                let word = 0;
                $(let word = placed::<$low, $width>(word, bits_of!($spelling $name));)*
                let word = placed::<51, 11>(word, u64::from($next));
                let word = placed::<62, 1>(word, u64::from($bind));
                placed::<63, 1>(word, u64::from($auth))
            })*
        }
    };
}

macro_rules! read {
    (($word:expr, $is_bind:expr, $is_auth:expr, $next:expr) $($form:ident ($bind:literal, $auth:literal) zero [$($zero:literal $zeros:literal)?] { $($name:ident $low:literal $width:literal ($spelling:ident)),* })*) => {
        match ($is_bind, $is_auth) {
            $(($bind, $auth) => {
                $(if Field::<$zero, $zeros>::get($word) != 0 {
                    return Err(ImageRule::F3);
                })?
                Ok((FixKind::$form { $($name: value_of!($spelling Field::<$low, $width>::get($word))),* }, $next))
            })*
        }
    };
}

/// The word with `value` in a field above all its bits.
fn placed<const LOW: u32, const WIDTH: u32>(word: u64, value: u64) -> u64
    requires some { 1 ≤ WIDTH }
    requires below { WIDTH ≤ 63 }
    requires within { LOW + WIDTH ≤ 64 }
    requires under { word < 2 ^ LOW }
    requires fits { value < 2 ^ WIDTH }
    ensures { result ≡ word + value * 2 ^ LOW }
{
    Field::<LOW, WIDTH>::put(word, value)
}

fn addend_bits(addend: i32) -> u64
    requires low { negsuc 262143 ≤ℤ addend }
    requires high { addend <ℤ pos 262144 }
    ensures { result ≡ low_bits 19 addend }
{
    if addend < 0 {
        (addend + 0x8_0000) as u64
    } else {
        addend as u64
    }
}

fn addend_of(bits: u64) -> i32
    requires { bits < 2 ^ 19 }
    ensures { result ≡ signed_bits 19 bits }
{
    if bits < 0x4_0000 {
        bits as i32
    } else {
        bits as i32 - 0x8_0000
    }
}

fn sig_bits(sig: Sig) -> u64
    requires { SigFits sig }
    ensures { result ≡ sig.disc + (bit sig.addr * 2 ^ 16 + key_number sig.key * 2 ^ 17) }
{
    let word = u64::from(sig.disc);
    let word = placed::<16, 1>(word, u64::from(sig.addr));
    placed::<17, 2>(word, u64::from(sig.key.number()))
}

fn key_numbered(number: u64) -> Key
    requires { number < 4 }
    ensures { result ≡ key_of number }
{
    match number {
        0 => Key::IA,
        1 => Key::IB,
        2 => Key::DA,
        _ => Key::DB,
    }
}

fn sig_of(bits: u64) -> Sig
    ensures { result ≡ sig_at 0 bits }
{
    Sig {
        key: key_numbered(Field::<17, 2>::get(bits)),
        addr: Field::<16, 1>::get(bits) == 1,
        disc: Field::<0, 16>::get(bits) as u16,
    }
}

/// The word of a slot that links `next` steps of 8 bytes on, or ends its chain where `next` is 0.
pub fn write_slot(kind: FixKind, next: u16) -> u64
    requires fits { FieldsFit kind }
    requires next { next < 2 ^ 11 }
    ensures value { result ≡ packed (parts_of kind next) }
    ensures read { slot_of result ≡ Ok (kind, next) }
{
    forms!(written(kind, next))
}

/// What the word of a slot says, and its link; F3 where one of its zero bits is set.
pub fn read_slot(word: u64) -> Result<(FixKind, u16), ImageRule>
    ensures value { result ≡ slot_of word }
    ensures written { IfOk result (IsWordOf word) }
{
    let is_bind = Field::<62, 1>::get(word) == 1;
    let is_auth = Field::<63, 1>::get(word) == 1;
    let next = Field::<51, 11>::get(word) as u16;
    forms!(read(word, is_bind, is_auth, next))
}
