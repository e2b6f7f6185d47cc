// The rows that a repair leaves: "the sender's row about itself is united with ours", and what arrives with the reply's points enters them. They are
// made beside the image, which is as it was until they are known to fit.
#![tactic(auto)]

ghost use Rattle.std.specs.Prelude.{◌≡◌, true, length};
ghost use Rattle.numbers.specs.Numbers.{Crew};
ghost use Rattle.row.specs.Row.{fits, sound};
ghost use Rattle.meaning.specs.Clock.{row, every_row, with_row};
ghost use Rattle.layout.specs.Clocks.{decode_clock};
ghost use Rattle.layout.specs.Image.{image_length, decode, good_image};
ghost use Rattle.arriving.specs.Sent.{points_in, Few, with_arrivals};

use numbers::Controller;

// What the sender has made itself, by its own row, was seen here too.
fn unite_sender(rows: &mut [u8], sender: Controller, clock: &[u8])
    requires { (length rows.old ≡ 96) × (length clock.now ≡ 96) × Crew sender × (sound (row (decode_clock rows.old) sender) ≡ true) × (sound (row (decode_clock clock.now) sender) ≡ true) }
    ensures { (decode_clock rows.new ≡ with_row (decode_clock rows.old) sender (row (decode_clock clock.now) sender)) × (length rows.new ≡ 96) }
{
    let ours = parts::row_at(rows, sender);
    let theirs = parts::row_at(clock, sender);
    arriving::put_row(rows, sender, ours.unite(theirs));
}

// The image's rows with the sender's, and with what arrives. Whether every row could take its own; where not, the rows are of no use.
pub fn new_rows(
    image: &[u8],
    count: usize,
    sender: Controller,
    points: &[u8],
    clock: &[u8],
    rows: &mut [u8],
) -> bool
    requires { (length image.now ≡ image_length) × (good_image image.now ≡ true) × (count ≡ length (decode image.now).points) × Crew sender × Few points.now × (length clock.now ≡ 96)
        × (sound (row (decode_clock clock.now) sender) ≡ true) × (length rows.old ≡ 96) }
    ensures { (result ≡ every_row fits (with_arrivals (decode image.now) (with_row (decode image.now).clock sender (row (decode_clock clock.now) sender)) (points_in points.now)))
        × (result ≡ true → decode_clock rows.new ≡ with_arrivals (decode image.now) (with_row (decode image.now).clock sender (row (decode_clock clock.now) sender)) (points_in points.now))
        × (length rows.new ≡ 96) }
{
    block::copy_in(rows, 0, &image[16..112]);
    unite_sender(rows, sender, clock);
    arriving::enter_rows(image, count, points, rows)
}
