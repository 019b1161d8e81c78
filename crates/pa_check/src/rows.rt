ghost use Rattle.std.specs.Prelude.{◌≡◌, ◌&&◌};
ghost use Rattle.pa_check.specs.Passing as passing;
ghost use Rattle.pa_check.specs.Rows as rows;

use pa_a64::{
    AuthenticateOp, BranchAuthenticatedOp, BranchOp, BranchRegisterOp, ExceptionOp, Instr, PlainOp,
    SignOp, StackOp, SumImmediateOp,
};

/// The register that holds a code pointer in a window.
pub(crate) const POINTER: u8 = 16;

/// The register that holds the address that it is signed with.
pub(crate) const ADDRESS: u8 = 17;

/// The link register.
const LINK: u8 = 30;

fn is_pair(rd: u8, rn: u8) -> bool
    ensures { result ≡ rows.is_pair rd rn }
{
    rd == POINTER && rn == ADDRESS
}

/// Whether a code pointer leaves x16 signed, or is called.
pub(crate) fn closes(instr: Option<Instr>) -> bool
    ensures { result ≡ rows.closes instr }
{
    match instr {
        Some(
            Instr::Sign {
                op: SignOp::Pacia,
                rd,
                rn,
            },
        ) => is_pair(rd, rn),
        Some(
            Instr::Plain {
                op: PlainOp::Paciza,
                rd,
            },
        ) => rd == POINTER,
        Some(
            Instr::BranchRegister {
                op: BranchRegisterOp::Blr,
                rn,
            },
        ) => rn == POINTER,
        _ => false,
    }
}

fn may_write(rd: u8) -> bool
    ensures { result ≡ rows.may_write rd }
{
    rd != POINTER && rd != LINK
}

fn may_read(rn: u8) -> bool
    ensures { result ≡ rows.may_read rn }
{
    rn != POINTER
}

fn may_read_both(rn: u8, rm: u8) -> bool
    ensures { result ≡ (rows.may_read rn && rows.may_read rm) }
{
    may_read(rn) && may_read(rm)
}

/// Whether a word may stand in a window: it computes with registers alone, doesn't name x16 and doesn't write x30.
pub(crate) fn may_stand(instr: Option<Instr>) -> bool
    ensures { result ≡ rows.may_stand instr }
{
    match instr {
        Some(Instr::MoveWide { rd, .. } | Instr::Adrp { rd, .. }) => may_write(rd),
        Some(
            Instr::SumImmediate { rd, rn, .. }
            | Instr::SubsImmediate { rd, rn, .. }
            | Instr::Bitfield { rd, rn, .. },
        ) => may_write(rd) && may_read(rn),
        Some(
            Instr::Sum { rd, rn, rm, .. }
            | Instr::Logical { rd, rn, rm, .. }
            | Instr::Divide { rd, rn, rm, .. }
            | Instr::Shift { rd, rn, rm, .. }
            | Instr::Csinc { rd, rn, rm, .. },
        ) => may_write(rd) && may_read_both(rn, rm),
        Some(Instr::MultiplyAdd { rd, rn, rm, ra, .. }) => may_write(rd)
            && may_read(rn)
            && may_read_both(rm, ra),
        Some(Instr::Nop) => true,
        _ => false,
    }
}

/// Whether a code pointer is signed or authenticated elsewhere than in x16, or with another address than x17.
pub(crate) fn is_misplaced(instr: Option<Instr>) -> bool
    ensures { result ≡ rows.is_misplaced instr }
{
    match instr {
        Some(
            Instr::Authenticate {
                op: AuthenticateOp::Autia,
                rd,
                rn,
            },
        ) => !is_pair(rd, rn),
        Some(
            Instr::Sign {
                op: SignOp::Pacia,
                rd,
                rn,
            },
        ) => !is_pair(rd, rn),
        Some(
            Instr::Plain {
                op: PlainOp::Autiza | PlainOp::Paciza,
                rd,
            },
        ) => rd != POINTER,
        _ => false,
    }
}

/// Whether a code pointer is signed.
pub(crate) fn signs_code(instr: Option<Instr>) -> bool
    ensures { result ≡ rows.signs_code instr }
{
    match instr {
        Some(
            Instr::Sign {
                op: SignOp::Pacia,
                ..
            }
            | Instr::Plain {
                op: PlainOp::Paciza,
                ..
            },
        ) => true,
        _ => false,
    }
}

/// How many words from itself a branch goes that stays in its function.
pub(crate) fn branch_words(instr: Option<Instr>) -> Option<i32>
    ensures { result ≡ rows.branch_words instr }
{
    match instr {
        Some(
            Instr::Branch {
                op: BranchOp::B,
                words,
            },
        ) => Some(words),
        Some(Instr::BranchConditional { words, .. } | Instr::CompareBranch { words, .. }) => Some(
            words,
        ),
        _ => None,
    }
}

/// How many words from itself a BL goes.
pub(crate) fn call_words(instr: Option<Instr>) -> Option<i32>
    ensures { result ≡ rows.call_words instr }
{
    match instr {
        Some(
            Instr::Branch {
                op: BranchOp::Bl,
                words,
            },
        ) => Some(words),
        _ => None,
    }
}

pub(crate) fn is_pacibsp(instr: Option<Instr>) -> bool
    ensures { result ≡ rows.is_pacibsp instr }
{
    match instr {
        Some(
            Instr::Stack {
                op: StackOp::Pacibsp,
            },
        ) => true,
        _ => false,
    }
}

/// Whether control doesn't go on behind a word.
pub(crate) fn may_be_last(instr: Option<Instr>) -> bool
    ensures { result ≡ rows.may_be_last instr }
{
    match instr {
        Some(
            Instr::Stack { op: StackOp::Retab }
            | Instr::Branch {
                op: BranchOp::B,
                ..
            }
            | Instr::Exception {
                op: ExceptionOp::Brk,
                ..
            },
        ) => true,
        _ => false,
    }
}

/// Whether a word is of no row, strips a pointer, signs or authenticates one to data, or gives a generic code.
pub(crate) fn is_forbidden(instr: Option<Instr>) -> bool
    ensures { result ≡ rows.is_forbidden instr }
{
    match instr {
        None => true,
        Some(
            Instr::Plain {
                op: PlainOp::Xpaci,
                ..
            }
            | Instr::Pacga { .. }
            | Instr::Sign {
                op: SignOp::Pacda | SignOp::Pacdb,
                ..
            }
            | Instr::Authenticate {
                op: AuthenticateOp::Autda | AuthenticateOp::Autdb,
                ..
            },
        ) => true,
        Some(_) => false,
    }
}

/// Whether a return address is signed or authenticated elsewhere than where a function begins and returns.
pub(crate) fn is_stray_return(marked: bool, instr: Option<Instr>) -> bool
    ensures { result ≡ rows.is_stray_return marked instr }
{
    match instr {
        Some(
            Instr::Sign {
                op: SignOp::Pacib,
                ..
            }
            | Instr::Authenticate {
                op: AuthenticateOp::Autib,
                ..
            }
            | Instr::Stack {
                op: StackOp::Autibsp,
            },
        ) => true,
        Some(
            Instr::Stack {
                op: StackOp::Pacibsp,
            },
        ) => !marked,
        _ => false,
    }
}

/// Whether a branch leaves by a register that isn't authenticated there, where a call by x16 may stand as `calls` says.
pub(crate) fn is_stray_branch(calls: bool, instr: Option<Instr>) -> bool
    ensures { result ≡ rows.is_stray_branch calls instr }
{
    match instr {
        Some(
            Instr::BranchRegister {
                op: BranchRegisterOp::Br | BranchRegisterOp::Ret,
                ..
            },
        ) => true,
        Some(
            Instr::BranchRegister {
                op: BranchRegisterOp::Blr,
                rn,
            },
        ) => !(rn == POINTER && calls),
        Some(
            Instr::BranchAuthenticated {
                op: BranchAuthenticatedOp::Braa | BranchAuthenticatedOp::Blrab,
                ..
            },
        ) => true,
        _ => false,
    }
}

/// Whether a word may open a window.
pub(crate) fn may_open(instr: Option<Instr>) -> bool
    ensures { result ≡ rows.may_open instr }
{
    match instr {
        Some(
            Instr::Authenticate {
                op: AuthenticateOp::Autia,
                rd,
                rn,
            },
        ) => is_pair(rd, rn),
        Some(
            Instr::Plain {
                op: PlainOp::Autiza,
                rd,
            }
            | Instr::Adrp { rd, .. },
        ) => rd == POINTER,
        _ => false,
    }
}

/// Whether a word adds to x16.
fn may_make(instr: Option<Instr>) -> bool
    ensures { result ≡ rows.may_make instr }
{
    match instr {
        Some(
            Instr::SumImmediate {
                op: SumImmediateOp::Add,
                rd,
                rn,
                ..
            },
        ) => rd == POINTER && rn == POINTER,
        _ => false,
    }
}

/// Whether no window is open behind a word, wherever it stands.
pub(crate) fn ends_any(instr: Option<Instr>) -> bool
    ensures { result ≡ rows.ends_any instr }
{
    !may_stand(instr) && !may_open(instr) && !may_make(instr)
}

/// Whether a word computes, loads or stores, but for ADRP.
pub(crate) fn is_plain(instr: Option<Instr>) -> bool
    ensures { result ≡ passing.is_plain instr }
{
    match instr {
        Some(
            Instr::MoveWide { .. }
            | Instr::SumImmediate { .. }
            | Instr::SubsImmediate { .. }
            | Instr::Sum { .. }
            | Instr::Logical { .. }
            | Instr::MultiplyAdd { .. }
            | Instr::Divide { .. }
            | Instr::Shift { .. }
            | Instr::Bitfield { .. }
            | Instr::Csinc { .. }
            | Instr::Nop
            | Instr::LoadStore { .. }
            | Instr::LoadStoreWord { .. }
            | Instr::LoadStoreHalf { .. }
            | Instr::LoadStoreByte { .. }
            | Instr::LoadStoreUnscaled { .. }
            | Instr::LoadStorePair { .. },
        ) => true,
        _ => false,
    }
}
