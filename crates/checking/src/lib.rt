// The checks of a message's point, on the lent bytes alone, before anything of it is taken in: rows 3 to 6, 9 and 10 of the table.
#![tactic(auto)]

ghost use Rattle.std.specs.Prelude.{◌≡◌, true, not, ◌+◌, ◌*◌, ◌≤◌, ◌<◌, length};
ghost use Rattle.numbers.specs.Words.{some?, ascends?};
ghost use Rattle.numbers.specs.Numbers.{Crew};
ghost use Rattle.refusal.specs.Refusal.{verdict_of};
ghost use Rattle.block.specs.Fields.{cut, field};
ghost use Rattle.block.specs.Block.{Laid};
ghost use Rattle.meaning.specs.Object.{same_contents, version_before};
ghost use Rattle.meaning.specs.State.{listed};
ghost use Rattle.meaning.specs.Message.{outgoing_formed};
ghost use Rattle.meaning.specs.Exchange.{both_hold, ahead_of_us, clashes};
ghost use Rattle.layout.specs.PointBlock.{form_1, decode_slot, decode_point};
ghost use Rattle.layout.specs.Image.{image_length, decode, good_image};
ghost use Rattle.layout.specs.Messages.{decode_outgoing};
ghost use Rattle.record_edits.specs.Written.{lay_point, point_block};
ghost use Rattle.checking.specs.Points.{dot_above, above, record_clashes, stored_somewhere, clashes_beside, list_clashes};
ghost use Rattle.checking.specs.Judged.{outgoing_judged, message_judged};

use block::Kind;
use numbers::{Controller, Dot};
use refusal::Refusal;

// ---- 9: "message names, in a dot, context or clock row, an own counter above our base: our history is lost"

fn dot_above(d: Dot, own: Controller, base: u32) -> bool
    ensures { result ≡ dot_above own base d }
{
    if d.who != own {
        return false;
    }
    base < d.count.0
}

// One of the versions' dots.
fn version_above(b: &[u8], own: Controller, base: u32) -> bool
    requires { (length b.now ≡ 512) × (field b.now 5 1 ≤ 8) }
    ensures { result ≡ some? (λ v. dot_above own base v.dot) (decode_point form_1 b.now).object.versions }
{
    (0..record::version_count(b) as usize).any(|i| dot_above(record::version_dot(b, i), own, base))
}

// A dot, or the own entry of the context as it stands in the message.
pub fn ahead_of_us(b: &[u8], own: Controller, base: u32) -> bool
    requires { (length b.now ≡ 512) × (field b.now 5 1 ≤ 8) × Crew own }
    ensures { result ≡ above own base (decode_point form_1 b.now).object }
{
    if version_above(b, own, base) {
        return true;
    }
    let e = record::context_entry(b, own);
    base < e.0
}

// ---- 10: "a version's dot in the message is stored here with other contents, or stored or listed here for another point"

// Version j of the message's block b and version i of the record p, of one dot. Slots that are laid out hold the same bytes just where they say
// the same.
fn slots_differ(b: &[u8], j: usize, p: &[u8], i: usize) -> bool
    requires { (length b.now ≡ 512) × Laid lay_point point_block b.now × (j < field b.now 5 1)
        × (length p.now ≡ 512) × Laid lay_point point_block p.now × (i < field p.now 5 1)
        × ((decode_slot form_1 (cut b.now (40 + 32 * j) 32)).dot ≡ (decode_slot form_1 (cut p.now (40 + 32 * i) 32)).dot) }
    ensures { result ≡ not (same_contents (decode_slot form_1 (cut b.now (40 + 32 * j) 32)).contents (decode_slot form_1 (cut p.now (40 + 32 * i) 32)).contents) }
{
    let from = 40 + 32 * j;
    let at = 40 + 32 * i;
    !block::same_bytes(&b[from..from + 32], &p[at..at + 32])
}

// Some record has a version of this dot.
fn stored_somewhere(image: &[u8], count: usize, d: Dot) -> bool
    requires { (length image.now ≡ image_length) × (good_image image.now ≡ true) × (count ≡ length (decode image.now).points) }
    ensures { result ≡ stored_somewhere (decode image.now).points d }
{
    apart::among(&image[1536..], count, d)
}

// Version j of the message's block b, whose point's record is p: no other record has a dot that p has.
fn version_otherwise(image: &[u8], count: usize, b: &[u8], j: usize, p: &[u8]) -> bool
    requires { (length image.now ≡ image_length) × (good_image image.now ≡ true) × (count ≡ length (decode image.now).points) × (length b.now ≡ 512) × Laid lay_point point_block b.now × (j < field b.now 5 1)
        × (length p.now ≡ 512) × Laid lay_point point_block p.now × (ascends? version_before (decode_point form_1 p.now).object.versions ≡ true) }
    ensures { result ≡ clashes_beside (decode image.now).points (decode_point form_1 p.now).object.versions (decode_slot form_1 (cut b.now (40 + 32 * j) 32)) }
{
    let d = record::version_dot(b, j);
    match object::find_version(p, d) {
        Ok(i) => slots_differ(b, j, p, i),
        Err(_) => stored_somewhere(image, count, d),
    }
}

// Each version of the message's block b, whose point's record is p.
fn known_otherwise(image: &[u8], count: usize, b: &[u8], p: &[u8]) -> bool
    requires { (length image.now ≡ image_length) × (good_image image.now ≡ true) × (count ≡ length (decode image.now).points) × (length b.now ≡ 512) × Laid lay_point point_block b.now
        × (length p.now ≡ 512) × Laid lay_point point_block p.now × (ascends? version_before (decode_point form_1 p.now).object.versions ≡ true) }
    ensures { result ≡ some? (clashes_beside (decode image.now).points (decode_point form_1 p.now).object.versions) (decode_point form_1 b.now).object.versions }
{
    (0..record::version_count(b) as usize).any(|j| version_otherwise(image, count, b, j, p))
}

// Each version of the message's block b, whose point has no record: a record that has its dot is another point's.
fn new_otherwise(image: &[u8], count: usize, b: &[u8]) -> bool
    requires { (length image.now ≡ image_length) × (good_image image.now ≡ true) × (count ≡ length (decode image.now).points) × (length b.now ≡ 512) × (field b.now 5 1 ≤ 8) }
    ensures { result ≡ some? (λ v. stored_somewhere (decode image.now).points v.dot) (decode_point form_1 b.now).object.versions }
{
    let many = record::version_count(b) as usize;
    (0..many).any(|j| stored_somewhere(image, count, record::version_dot(b, j)))
}

// Each of the records. "No dot stands in two records", so the point's own record is looked at first.
fn stored_otherwise(image: &[u8], count: usize, b: &[u8]) -> bool
    requires { (length image.now ≡ image_length) × (good_image image.now ≡ true) × (count ≡ length (decode image.now).points) × (length b.now ≡ 512) × Laid lay_point point_block b.now }
    ensures { result ≡ some? (λ p. some? (record_clashes (decode_point form_1 b.now).key p) (decode_point form_1 b.now).object.versions) (decode image.now).points }
{
    match image::find_point(image, count, record::key_of(b)) {
        Ok(i) => {
            let at = 512 * (3 + i);
            known_otherwise(image, count, b, &image[at..at + 512])
        }
        Err(_) => new_otherwise(image, count, b),
    }
}

// Both lists.
fn listed_otherwise(image: &[u8], b: &[u8]) -> bool
    requires { (length image.now ≡ image_length) × (good_image image.now ≡ true) × (length b.now ≡ 512) × (field b.now 5 1 ≤ 8) }
    ensures { result ≡ some? (list_clashes (decode_point form_1 b.now).key (listed (decode image.now))) (decode_point form_1 b.now).object.versions }
{
    if !image::versions_listed_for(&image[512..1024], b) {
        return true;
    }
    !image::versions_listed_for(&image[1024..1536], b)
}

// The point block b of a message against all that is stored and listed here.
pub fn clashing(image: &[u8], count: usize, b: &[u8]) -> bool
    requires { (length image.now ≡ image_length) × (good_image image.now ≡ true) × (count ≡ length (decode image.now).points) × (length b.now ≡ 512) × Laid lay_point point_block b.now }
    ensures { result ≡ some? (clashes (decode image.now) (decode_point form_1 b.now).key) (decode_point form_1 b.now).object.versions }
{
    if stored_otherwise(image, count, b) {
        return true;
    }
    listed_otherwise(image, b)
}

// ---- a message of one point

// "296 sender (kinds 4 and 7: the writer's own number ..)"
fn sender_of(message: &[u8]) -> Controller
    requires { length message.now ≡ 512 }
    ensures { result ≡ (decode_outgoing message.now).sender }
{
    Controller(block::u8_at(message, 296))
}

// 4, of the numbers in a message: "order, ranges, .. a dot twice, a non-holder named in a dot or context, .. a version not covered by its ..
// context", as it stands.
fn message_formed(message: &[u8], table: &[u8]) -> bool
    requires { (length message.now ≡ 512) × (field message.now 5 1 ≤ 8) × (length table.now ≡ 8) }
    ensures { result ≡ outgoing_formed table.now (decode_outgoing message.now) }
{
    if !record::is_controller(sender_of(message)) {
        return false;
    }
    if !record::point_formed(message, table) {
        return false;
    }
    record::covered_as_is(message)
}

// 5: "a job (argument's or message's) not held here or not by the sender"
fn job_held(image: &[u8], message: &[u8]) -> bool
    requires { (length image.now ≡ image_length) × (good_image image.now ≡ true) × (length message.now ≡ 512) × Crew (decode_outgoing message.now).sender }
    ensures { result ≡ both_hold (decode image.now) (decode_outgoing message.now).sender (decode_outgoing message.now).key }
{
    let job = block::u8_at(message, 4);
    let own = head::own_of(&image[0..512]);
    if !parts::holds(&image[8..16], own, job) {
        return false;
    }
    parts::holds(&image[8..16], sender_of(message), job)
}

// 9, by our number and our base.
fn history_lost(image: &[u8], message: &[u8]) -> bool
    requires { (length image.now ≡ image_length) × (good_image image.now ≡ true) × (length message.now ≡ 512) × (field message.now 5 1 ≤ 8) }
    ensures { result ≡ ahead_of_us (decode image.now) (decode_outgoing message.now).object }
{
    let own = head::own_of(&image[0..512]);
    let ours = parts::row_at(&image[16..112], own);
    ahead_of_us(message, own, ours.base)
}

// The first of rows 5, 6, 9 and 10 that applies to a well-formed message.
fn judge_outgoing(image: &[u8], message: &[u8]) -> Result<(), Refusal>
    requires { (length image.now ≡ image_length) × (good_image image.now ≡ true) × (length message.now ≡ 512) × Laid lay_point point_block message.now × Crew (decode_outgoing message.now).sender }
    ensures { result ≡ verdict_of (outgoing_judged (decode image.now) (decode_outgoing message.now) true) }
{
    if !job_held(image, message) {
        return Err(Refusal::OutOfRange);
    }
    if !exchange::other_peer(image, sender_of(message)) {
        return Err(Refusal::NotPeer);
    }
    if history_lost(image, message) {
        return Err(Refusal::HistoryLost);
    }
    if clashing(image, image::stored_count(image), message) {
        return Err(Refusal::DotClash);
    }
    Ok(())
}

// The first refusal from 3 to 10 that applies to the message.
pub fn judge_message(image: &[u8], message: &[u8]) -> Result<(), Refusal>
    requires { (length image.now ≡ image_length) × (good_image image.now ≡ true) × (length message.now ≡ 512) }
    ensures { result ≡ verdict_of (message_judged message.now (decode image.now) true) }
{
    if !block::is_sealed(message) {
        return Err(Refusal::WrongCheck);
    }
    if !record::point_laid_out(message, Kind::Outgoing, 0) {
        return Err(Refusal::IllFormed);
    }
    if !message_formed(message, &image[8..16]) {
        return Err(Refusal::IllFormed);
    }
    judge_outgoing(image, message)
}
