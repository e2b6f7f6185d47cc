// The calls with messages: take in, ask, reply, repair. Check, judge, apply: no lent byte is written before every refusal is excluded.
#![tactic(auto)]

ghost use Rattle.std.specs.Prelude.{◌≡◌, ◌<◌, ◌&&◌, length, leb};
ghost use Rattle.layout.specs.Calls.{one_block, reply_room, whole_reply};
ghost use Rattle.opening.specs.CallContracts.{without_count, count_in, TakesIn, Asks, Replies, Repairs};

use refusal::Refusal;

// ---- taking in

pub fn take_in(image: &mut [u8], message: &[u8]) -> Result<(), Refusal>
    ensures { TakesIn (λ v. v) image.old message.now result image.new }
{
    opening::opens(image, message.len() == 512)?;
    taking::take_in_at(image, message)
}

// ---- asking

pub fn ask(image: &[u8], to: u8, out: &mut [u8]) -> Result<(), Refusal>
    ensures { Asks (λ v. v) image.now to out.old result out.new }
{
    opening::opens(image, out.len() == 512)?;
    exchange::ask_at(image, to, out)
}

// ---- replying

// One block for the ask; "a buffer for writing a reply has at least 61,952 bytes".
fn reply_lengths(message: &[u8], out: &[u8]) -> bool
    ensures { result ≡ (one_block message.now && leb reply_room (length out.now)) }
{
    message.len() == 512 && 61952 <= out.len()
}

// The answer, and how many points were sent.
pub fn reply(image: &[u8], message: &[u8], out: &mut [u8]) -> Result<u32, Refusal>
    ensures { Replies (λ v. v) image.now message.now out.old (without_count result) out.new (count_in result) }
{
    opening::opens(image, reply_lengths(message, out))?;
    replying::judge_ask(image, message)?;
    Ok(replying::write_reply(image, message, out))
}

// ---- repairing

// "A reply taken in by repair is 1 to 121 whole blocks."
fn is_whole(message: &[u8]) -> bool
    ensures { result ≡ whole_reply message.now }
{
    let length = message.len();
    if length % 512 != 0 {
        return false;
    }
    if length < 512 {
        return false;
    }
    length <= 61952
}

pub fn repair(image: &mut [u8], message: &[u8]) -> Result<(), Refusal>
    ensures { Repairs (λ v. v) image.old message.now result image.new }
{
    opening::opens(image, is_whole(message))?;
    reading::repair_read(image, message)
}
