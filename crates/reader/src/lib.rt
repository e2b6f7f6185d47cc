// A reply's points one after the other: a thin reader over the lent bytes and a position. Each function over it takes it apart and
// leaves the work to one on the slice and the number, so that only these few are proved by a walk.
#![tactic(auto)]

ghost use Rattle.std.specs.Prelude.{◌≡◌, ◌+◌, ◌*◌, ◌-◌, ◌<◌, ◌≤◌, length};
ghost use Rattle.block.specs.Block.{block_at};
ghost use Rattle.reader.specs.Reading.{points_in, at_start, next_after};

// The lent bytes, and how many points were handed out.
#[derive(Drop)]
pub struct Reader<'a> {
    pub reply: &'a [u8],
    pub at: usize,
}

// Block 0 is the head, so point i stands in the block after block i.
pub fn point_at(reply: &[u8], i: usize) -> &[u8]
    requires { 512 * (2 + i) ≤ length reply.now }
    ensures { result.now ≡ block_at reply.now (1 + i) }
{
    let at = 512 * (1 + i);
    &reply[at..at + 512]
}

pub fn points_in(reply: &[u8]) -> usize
    requires { 512 ≤ length reply.now }
    ensures { result ≡ points_in reply.now }
{
    reply.len() / 512 - 1
}

pub fn left_of(reply: &[u8], at: usize) -> usize
    requires { (512 ≤ length reply.now) × (at ≤ points_in reply.now) }
    ensures { result ≡ points_in reply.now - at }
{
    points_in(reply) - at
}

pub fn new<'a>(reply: &'a [u8]) -> Reader<'a>
    ensures { result ≡ at_start reply.entry }
{
    Reader { reply, at: 0 }
}

// How many points are not handed out yet.
pub fn left<'a>(r: Reader<'a>) -> usize
    requires { (512 ≤ length r.reply.now) × (r.at ≤ points_in r.reply.now) }
    ensures { result ≡ points_in r.entry.reply.now - r.entry.at }
{
    left_of(r.reply, r.at)
}

// The block of the point at the position.
pub fn point<'a>(r: Reader<'a>) -> &'a [u8]
    requires { 512 * (2 + r.at) ≤ length r.reply.now }
    ensures { result.now ≡ block_at r.entry.reply.now (1 + r.entry.at) }
{
    point_at(r.reply, r.at)
}

// The reader after one more point was handed out; a reply has at most 120.
pub fn moved<'a>(r: Reader<'a>) -> Reader<'a>
    requires { r.at < 120 }
    ensures { result ≡ next_after r.entry }
{
    Reader {
        reply: r.reply,
        at: r.at + 1,
    }
}
