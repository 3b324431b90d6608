// The walker: a struct that holds a stream and a place in it. A step reads the packet at the place by the packet reader and moves on.
// The functions over the struct are thin. `walk` takes a plain slice and numbers.
#![tactic(auto)]

ghost use Rattle.std.specs.Prelude.{◌≡◌, length};
ghost use Rattle.walker.specs.Walk.{Made, Stepped, walk_of};
ghost use Rattle.walker.specs.Inside.{turns_of};

use packet::Packet;
use plate::Refusal;

#[derive(Clone, Copy, PartialEq, Eq, Debug)]
pub struct Walker<'a> {
    pub stream: &'a [u8],
    pub at: usize,
}

// Where a walk stops: the place, and what stands there.
#[derive(Clone, Copy, PartialEq, Eq, Debug)]
pub struct Stop {
    pub at: usize,
    pub answer: Result<Packet, Refusal>,
}

// A walker at a place of a stream.
#[tactic(auto, unfolding(crate::specs::Walk::Made))]
pub fn make<'a>(stream: &'a [u8], at: usize) -> Walker<'a>
    ensures { Made stream.entry at result }
{
    Walker { stream, at }
}

// A step: what stands at the walker's place. The walker moves behind a whole packet, and stays where the step is refused.
#[tactic(auto, unfolding(crate::specs::Walk::Stepped, crate::specs::Walk::place_after))]
pub fn step<'s, 'a>(w: &'s mut Walker<'a>) -> Result<Packet, Refusal>
    ensures { Stepped w.old result w.new }
{
    let answer = packet::header(w.stream, w.at);
    if let Ok(p) = answer {
        w.at += p.len;
    }
    answer
}

// So many of n steps that the others stay where they are: a packet has 16 bytes at least.
#[tactic(auto, unfolding(crate::specs::Inside::turns_of))]
fn turns(s: &[u8], n: usize) -> usize
    ensures { result ≡ turns_of (length s.now) n }
{
    n.min(s.len() / 16 + 1)
}

// Where a walker that is made at a place of a stream stops after n steps, and what its next step gives.
pub fn walk(s: &[u8], at: usize, n: usize) -> Stop
    ensures { result ≡ walk_of s.now at n }
{
    let mut w = make(s, at);
    for _ in 0..turns(s, n) {
        let _ = step(&mut w);
    }
    Stop {
        at: w.at,
        answer: step(&mut w),
    }
}
