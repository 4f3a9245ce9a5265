// How many bytes at the front pass a test.
ghost use Rattle.std.specs.Prelude.{◌≡◌, true, ℕ, ◌≤◌, Bool, length};
ghost use Rattle.lists.specs.Fronts.{front, Pass, Scanned, Computes};

// As many bytes are tested together: their loop has no way out, so that it is compiled to vectors.
const BLOCK: usize = 32;

fn all_pass<F: Fn(u8) -> bool>(block: &[u8; BLOCK], passes: F) -> bool
    requires { F.IsAlwaysCallable passes }
    ensures { (test : ℕ → Bool) → Computes (F.post passes) test → result ≡ true → Pass test block.now 0 32 }
{
    let mut all = true;
    for b in block {
        all &= passes(*b);
    }
    all
}

// How far whole blocks pass.
fn blocks_front<F: Fn(u8) -> bool>(bytes: &[u8], passes: F) -> usize
    requires { F.IsAlwaysCallable passes }
    ensures within { result ≤ length bytes.now }
    ensures passed { (test : ℕ → Bool) → Computes (F.post passes) test → Scanned test bytes.now result }
{
    let mut rest = bytes;
    while let Some((block, behind)) = rest.split_first_chunk::<BLOCK>() {
        if !all_pass(block, &passes) {
            break;
        }
        rest = behind;
    }
    bytes.len() - rest.len()
}

pub fn front<F: Fn(u8) -> bool>(bytes: &[u8], passes: F) -> usize
    requires { F.IsAlwaysCallable passes }
    ensures { (test : ℕ → Bool) → Computes (F.post passes) test → result ≡ front test bytes.now }
{
    let scanned = blocks_front(bytes, &passes);
    let rest = &bytes[scanned..];
    let more = rest.iter().position(|b| !passes(*b));
    scanned + more.unwrap_or(rest.len())
}
