// The nine calls and `good`, each answer told as document 01's number. Crate sqimrutta_c hands them to C.
#![tactic(auto)]

ghost use Rattle.std.specs.Prelude.{◌≡◌, if◌then◌else◌};
ghost use Rattle.refusal.specs.Refusal.{answer_number};
ghost use Rattle.layout.specs.Image.{good_image};
ghost use Rattle.opening.specs.CallContracts.{without_count, count_in, Starts, Reads, Writes, Deletes, TakesIn, Asks, Replies, Repairs, Strips};

use refusal::{Refusal, answer_number};

// The number of the answer, and the count, which is 0 where the call is refused.
fn told(answer: Result<u32, Refusal>, count: &mut u32) -> u32
    ensures number { result ≡ answer_number (without_count answer) }
    ensures count { count.new ≡ count_in answer }
{
    match answer {
        Ok(n) => {
            *count = n;
            0
        }
        Err(r) => {
            *count = 0;
            u32::from(r)
        }
    }
}

// "An accepted call returns 0", a refused one the refusal's number.
#[unsafe(no_mangle)]
pub extern "C" fn sqimrutta_start(image: &mut [u8], number: u8, table: &[u8]) -> u32
    ensures { Starts answer_number image.old number table.now result image.new }
{
    answer_number(starting::start(image, number, table))
}

// Whether these bytes are a good image: 1 or 0, on any bytes of any length.
#[unsafe(no_mangle)]
pub extern "C" fn sqimrutta_good(image: &[u8]) -> u32
    ensures { result ≡ (if good_image image.now then 1 else 0) }
{
    if image::good(image) {
        return 1;
    }
    0
}

#[unsafe(no_mangle)]
pub extern "C" fn sqimrutta_read(image: &[u8], job: u8, point: u16, out: &mut [u8]) -> u32
    ensures { Reads answer_number image.now job point out.old result out.new }
{
    answer_number(own_calls::read(image, job, point, out))
}

#[unsafe(no_mangle)]
pub extern "C" fn sqimrutta_write(
    image: &mut [u8],
    job: u8,
    point: u16,
    value: &[u8],
    context: &[u32],
    out: &mut [u8],
) -> u32
    ensures { Writes answer_number image.old job point value.now context.now out.old result image.new out.new }
{
    answer_number(own_calls::write(image, job, point, value, context, out))
}

#[unsafe(no_mangle)]
pub extern "C" fn sqimrutta_delete(
    image: &mut [u8],
    job: u8,
    point: u16,
    context: &[u32],
    out: &mut [u8],
) -> u32
    ensures { Deletes answer_number image.old job point context.now out.old result image.new out.new }
{
    answer_number(own_calls::delete(image, job, point, context, out))
}

#[unsafe(no_mangle)]
pub extern "C" fn sqimrutta_take_in(image: &mut [u8], message: &[u8]) -> u32
    ensures { TakesIn answer_number image.old message.now result image.new }
{
    answer_number(message_calls::take_in(image, message))
}

#[unsafe(no_mangle)]
pub extern "C" fn sqimrutta_ask(image: &[u8], to: u8, out: &mut [u8]) -> u32
    ensures { Asks answer_number image.now to out.old result out.new }
{
    answer_number(message_calls::ask(image, to, out))
}

#[unsafe(no_mangle)]
pub extern "C" fn sqimrutta_reply(
    image: &[u8],
    message: &[u8],
    out: &mut [u8],
    count: &mut u32,
) -> u32
    ensures { Replies answer_number image.now message.now out.old result out.new count.new }
{
    told(message_calls::reply(image, message, out), count)
}

#[unsafe(no_mangle)]
pub extern "C" fn sqimrutta_repair(image: &mut [u8], message: &[u8]) -> u32
    ensures { Repairs answer_number image.old message.now result image.new }
{
    answer_number(message_calls::repair(image, message))
}

#[unsafe(no_mangle)]
pub extern "C" fn sqimrutta_strip_pass(image: &mut [u8], count: &mut u32) -> u32
    ensures { Strips answer_number image.old result image.new count.new }
{
    told(own_calls::strip_pass(image), count)
}
