// The forecast issue: the number in force, and for each macro byte the number that its last DEFINE kept.
#![tactic(auto)]

ghost use Rattle.std.specs.Prelude.{◌≡◌};
ghost use Rattle.codes.specs.Answers.{allowed};
ghost use Rattle.sent_macros.specs.Refinement.{bare_table};
ghost use Rattle.issues.specs.Issues.{first_issue, kept_of, keeping, forgetting, kept_after, macro_guards};

use bodies::MacroReply;
use codes::Code;

// A number for each byte.
const BYTES: usize = 256;

// The number in force, and one kept for each byte, 0 of one that was not defined: one cell for each byte, as a host lends them to
// the library for C.
#[derive(Clone, Copy)]
pub struct Issues {
    pub present: u16,
    pub kept: [u16; BYTES],
}

// Those of a fresh end.
pub fn first() -> Issues
    ensures { result ≡ first_issue }
{
    Issues {
        present: 0,
        kept: [0; BYTES],
    }
}

// The number that the last DEFINE of a byte kept.
pub fn kept_of(i: Issues, x: u8) -> u16
    ensures { result ≡ kept_of i x }
{
    i.kept[x as usize]
}

// A definition of the byte keeps the number in force.
pub fn keep(i: Issues, x: u8) -> Issues
    ensures { result ≡ keeping i x }
{
    let mut kept = i.kept;
    kept[x as usize] = i.present;
    Issues { kept, ..i }
}

// The definitions are gone, and their numbers with them.
pub fn forget(i: Issues) -> Issues
    ensures { result ≡ forgetting i }
{
    Issues {
        kept: [0; BYTES],
        ..i
    }
}

// After an answer about a macro; the numbers of the statuses say which bytes are accepted.
pub fn kept_after(statuses: &[u8; BYTES], i: Issues, reply: MacroReply) -> Issues
    ensures { result ≡ kept_after (bare_table statuses.now) i reply }
{
    match reply {
        MacroReply::PleaseCancel(x) if sent_macros::is_accepted(statuses, x) => keep(i, x),
        _ => i,
    }
}

// The refusals of a macro's use that turn on its byte, in their order.
#[tactic(auto, unfolding(codes::specs::Answers::allowed))]
pub fn use_refusal(statuses: &[u8; BYTES], i: Issues, x: u8) -> Result<(), Code>
    ensures { result ≡ allowed (macro_guards (bare_table statuses.now) i x) }
{
    if !sent_macros::is_accepted(statuses, x) {
        return Err(Code::NoText);
    }
    if kept_of(i, x) != i.present {
        return Err(Code::IssueDiffers);
    }
    Ok(())
}
