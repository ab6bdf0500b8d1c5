// An index of a proof's steps: those of one key in a chain, the newest first. `heads` has the newest step of each key; `low` and `high`
// have with each step the next older one of its key. A link is a step's number and 1; 0 is none. No array is over 1,024 bytes, so the
// links of the first 1,024 steps stand in two; later steps are not held.
#![tactic(auto)]

ghost use Rattle.std.specs.Prelude.{◌≡◌, ◌<◌, get_or};
ghost use Rattle.step_index.specs.Index.{link_at, Extends};

// How many steps it holds.
pub const STEPS: usize = 1024;

// The newest step of a key.
pub fn newest(heads: &[u16; 512], key: usize) -> usize
    requires { key < 512 }
    ensures { result ≡ get_or heads.now key 0 }
{
    usize::from(heads[key])
}

// The next older step of step i's key.
pub fn older(low: &[u16; 512], high: &[u16; 512], i: usize) -> usize
    requires { i < 1024 }
    ensures { result ≡ link_at low.now high.now i }
{
    if i < 512 {
        usize::from(low[i])
    } else {
        usize::from(high[i - 512])
    }
}

// Step i, newer than all that are held, if there is room for it.
pub fn insert(
    heads: &mut [u16; 512],
    low: &mut [u16; 512],
    high: &mut [u16; 512],
    key: usize,
    i: usize,
)
    requires { key < 512 }
    ensures { Extends heads.old low.old high.old key i heads.new low.new
        high.new }
{
    if STEPS <= i {
        return;
    }
    let old = heads[key];
    heads[key] = (i + 1) as u16;
    if i < 512 {
        low[i] = old;
    } else {
        high[i - 512] = old;
    }
}
