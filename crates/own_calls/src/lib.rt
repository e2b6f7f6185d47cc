// The calls on the own image: read, write, delete, strip pass. Check, judge, apply: no lent byte is written before every refusal is excluded.
#![tactic(auto)]

ghost use Rattle.std.specs.Prelude.{◌≡◌, ◌<◌, true, ◌&&◌, length, eqb};
ghost use Rattle.numbers.specs.Key.{key};
ghost use Rattle.meaning.specs.State.{local};
ghost use Rattle.meaning.specs.OwnSteps.{shown, strip_pass};
ghost use Rattle.layout.specs.Clocks.{decode_clock};
ghost use Rattle.layout.specs.Image.{image_length, encode, decode, good_image};
ghost use Rattle.layout.specs.Messages.{encode_reading};
ghost use Rattle.layout.specs.Calls.{one_block};
ghost use Rattle.opening.specs.CallContracts.{without_count, count_in, Reads, Writes, Deletes, Strips};

use block::Kind;
use numbers::Key;
use refusal::Refusal;

// ---- reading

// "Read: the filled object without its deleted versions."
fn write_reading(image: &[u8], k: Key, out: &mut [u8])
    requires { (length image.now ≡ image_length) × (good_image image.now ≡ true) × (length out.old ≡ 512) }
    ensures { out.new ≡ encode_reading (record { sender = (decode image.now).own; key = k; object = shown (local (decode image.now) k) }) }
{
    let own = head::own_of(&image[0..512]);
    let count = image::stored_count(image);
    image_edits::fetch(image, count, k, Kind::Reading, own, out);
    object::fill_in(out, &image[8..16], &image[16..112]);
    object::drop_deleted(out);
    block::seal_block(out);
}

pub fn read(image: &[u8], job: u8, point: u16, out: &mut [u8]) -> Result<(), Refusal>
    ensures { Reads (λ v. v) image.now job point out.old result out.new }
{
    let k = opening::named(job, point);
    opening::admit(image, out.len() == 512, k)?;
    write_reading(image, k, out);
    Ok(())
}

// ---- writing and deleting

// "contexts eight counters", and one block for the message.
fn lengths_right(context: &[u32], out: &[u8]) -> bool
    ensures { result ≡ (eqb (length context.now) 8 && one_block out.now) }
{
    context.len() == 8 && out.len() == 512
}

pub fn write(
    image: &mut [u8],
    job: u8,
    point: u16,
    value: &[u8],
    context: &[u32],
    out: &mut [u8],
) -> Result<(), Refusal>
    ensures { Writes (λ v. v) image.old job point value.now context.now out.old result image.new out.new }
{
    let k = opening::named(job, point);
    opening::admit(image, lengths_right(context, out), k)?;
    writing::write_at(image, k, value, context, out)
}

pub fn delete(
    image: &mut [u8],
    job: u8,
    point: u16,
    context: &[u32],
    out: &mut [u8],
) -> Result<(), Refusal>
    ensures { Deletes (λ v. v) image.old job point context.now out.old result image.new out.new }
{
    let k = opening::named(job, point);
    opening::admit(image, lengths_right(context, out), k)?;
    writing::delete_at(image, k, context, out)
}

// ---- strip pass

// "Strip pass: every stored point is stripped." The last is looked at first, so that those still to come stand where they stood. How many
// records went.
fn strip_all(image: &mut [u8], rows: &[u8]) -> u32
    requires { (length image.old ≡ image_length) × (good_image image.old ≡ true) × (length rows.now ≡ 96) × (decode_clock rows.now ≡ (decode image.old).clock) }
    ensures { (result ≡ (strip_pass (decode image.old)).count) × (image.new ≡ encode (strip_pass (decode image.old)).state) }
{
    let stored = image::stored_count(image);
    let mut count = stored;
    for i in (0..stored).rev() {
        if store::strip_at(image, count, i, rows) {
            count -= 1;
        }
    }
    (stored - count) as u32
}

// The answer, and how many records went.
pub fn strip_pass(image: &mut [u8]) -> Result<u32, Refusal>
    ensures { Strips (λ v. v) image.old (without_count result) image.new (count_in result) }
{
    opening::opens(image, true)?;
    let mut rows: [u8; 96] = [0; 96];
    block::copy_in(&mut rows, 0, &image[16..112]);
    Ok(strip_all(image, &rows))
}
