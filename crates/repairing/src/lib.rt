// Repair, on a good image: judged on the lent bytes, then made in place. A reply is lent as its head, one block, and its points' blocks behind it.
#![tactic(auto)]

ghost use Rattle.std.specs.Prelude.{◌≡◌, true, [], length, take, ◌/◌, ◌≤◌, Ok};
ghost use Rattle.numbers.specs.Words.{map};
ghost use Rattle.refusal.specs.Refusal.{verdict_of};
ghost use Rattle.row.specs.Row.{fits};
ghost use Rattle.meaning.specs.Clock.{every_row};
ghost use Rattle.meaning.specs.Settle.{settled};
ghost use Rattle.meaning.specs.Exchange.{tidied};
ghost use Rattle.layout.specs.Clocks.{decode_clock};
ghost use Rattle.layout.specs.Image.{image_length, encode, decode, good_image};
ghost use Rattle.layout.specs.Calls.{afterwards, whole_reply};
ghost use Rattle.arriving.specs.Sent.{Few};
ghost use Rattle.placing.specs.Placed.{comes};
ghost use Rattle.hearing.specs.Heard.{AllLaid, reply_in};
ghost use Rattle.tallying.specs.Tallied.{mark, results_judged};
ghost use Rattle.taking.specs.Taken.{left_by};
ghost use Rattle.repairing.specs.Repaired.{united, outcome, clock_after, Heard, Lent, made_of, repaired};

use refusal::Refusal;

// ---- making it

// A reply that was judged: new dots are listed, the points are merged, those first that need no new place, the rows are the new ones, the watermark is
// raised and what all know goes from the lists. Local objects are filled with the rows as they were, so these come after the points.
fn put_repaired(
    image: &mut [u8],
    count: usize,
    head: &[u8],
    points: &[u8],
    rows: &[u8],
    marks: &[u8],
)
    requires { (length image.old ≡ image_length) × (good_image image.old ≡ true) × (count ≡ length (decode image.old).points) × Lent (decode image.old) head.now points.now
        × (length rows.now ≡ 96) × (decode_clock rows.now ≡ clock_after (decode image.old) (reply_in head.now points.now)) × (length marks.now ≡ 120)
        × (take (length points.now / 512) marks.now ≡ map (λ q. mark (comes (decode_clock rows.now) (decode image.old).points q)) (outcome (decode image.old) (reply_in head.now points.now)))
        × (verdict_of (results_judged (decode image.old) (decode_clock rows.now) (outcome (decode image.old) (reply_in head.now points.now)) true) ≡ Ok tt) }
    ensures { image.new ≡ encode (tidied (settled (decode image.old) (united (decode image.old) (reply_in head.now points.now)) (outcome (decode image.old) (reply_in head.now points.now))) (reply_in head.now points.now)) }
{
    noting::list_new(image, count, points);
    mending::merge_marked(image, points, &head[8..104], rows, marks, 0);
    mending::merge_marked(image, points, &head[8..104], rows, marks, 1);
    joining::set_rows(image, rows);
    tidying::tidy(image, greeting::sender_of(head), &head[8..104]);
}

// ---- the step

// 12 and 13, and then the rest.
fn repair_marked(
    image: &mut [u8],
    count: usize,
    head: &[u8],
    points: &[u8],
    rows: &[u8],
    marks: &mut [u8],
) -> Result<(), Refusal>
    requires { (length image.old ≡ image_length) × (good_image image.old ≡ true) × (count ≡ length (decode image.old).points) × Lent (decode image.old) head.now points.now
        × (length rows.now ≡ 96) × (decode_clock rows.now ≡ clock_after (decode image.old) (reply_in head.now points.now)) × (every_row fits (decode_clock rows.now) ≡ true) × (length marks.old ≡ 120) }
    ensures { (result ≡ (afterwards image.old [] (left_by (made_of (decode image.old) (reply_in head.now points.now)))).verdict)
        × (image.new ≡ (afterwards image.old [] (left_by (made_of (decode image.old) (reply_in head.now points.now)))).image) }
{
    tallying::judge_results(image, count, points, &head[8..104], rows, marks)?;
    put_repaired(image, count, head, points, rows, marks);
    Ok(())
}

// The rows have taken what arrives.
fn repair_entered(
    image: &mut [u8],
    count: usize,
    head: &[u8],
    points: &[u8],
    rows: &[u8],
) -> Result<(), Refusal>
    requires { (length image.old ≡ image_length) × (good_image image.old ≡ true) × (count ≡ length (decode image.old).points) × Lent (decode image.old) head.now points.now
        × (length rows.now ≡ 96) × (decode_clock rows.now ≡ clock_after (decode image.old) (reply_in head.now points.now)) × (every_row fits (decode_clock rows.now) ≡ true) }
    ensures { (result ≡ (afterwards image.old [] (left_by (made_of (decode image.old) (reply_in head.now points.now)))).verdict)
        × (image.new ≡ (afterwards image.old [] (left_by (made_of (decode image.old) (reply_in head.now points.now)))).image) }
{
    // A byte each, as `judge_results` and `merge_marked` take them.
    let mut marks: [u8; 120] = [0; 120];
    repair_marked(image, count, head, points, rows, &mut marks)
}

// 11, and then the rest.
fn repair_heard(image: &mut [u8], head: &[u8], points: &[u8]) -> Result<(), Refusal>
    requires { (length image.old ≡ image_length) × (good_image image.old ≡ true) × Lent (decode image.old) head.now points.now }
    ensures { (result ≡ (afterwards image.old [] (left_by (made_of (decode image.old) (reply_in head.now points.now)))).verdict)
        × (image.new ≡ (afterwards image.old [] (left_by (made_of (decode image.old) (reply_in head.now points.now)))).image) }
{
    let count = image::stored_count(image);
    let mut rows: [u8; 96] = [0; 96];
    let sender = greeting::sender_of(head);
    if !uniting::new_rows(image, count, sender, points, &head[8..104], &mut rows) {
        return Err(Refusal::RowTooFar);
    }
    repair_entered(image, count, head, points, &rows)
}

// Rows 3 to 10, and then the rest: what a reader of the reply that has handed out nothing yet brings.
pub fn repair_at(image: &mut [u8], reply: &[u8], at: usize) -> Result<(), Refusal>
    requires { (length image.old ≡ image_length) × (good_image image.old ≡ true) × (whole_reply reply.now ≡ true) × (at ≡ 0) }
    ensures { (result ≡ (afterwards image.old [] (repaired image.old reply.now)).verdict) × (image.new ≡ (afterwards image.old [] (repaired image.old reply.now)).image) }
{
    hearing::judge_reply(image, reply)?;
    let from = 512 * (1 + at);
    repair_heard(image, &reply[0..512], &reply[from..])
}
