// A reply, on a good image: the ask is judged, then the points that the asker lacks are written, and then the head.
#![tactic(auto)]

ghost use Rattle.std.specs.Prelude.{◌≡◌, true, ◌*◌, ◌≤◌, ◌<◌, length, ltb, None};
ghost use Rattle.numbers.specs.Words.{keep};
ghost use Rattle.numbers.specs.Numbers.{Crew, same_controller};
ghost use Rattle.refusal.specs.Refusal.{verdict_of};
ghost use Rattle.row.specs.Row.{highest};
ghost use Rattle.block.specs.Fields.{splice, field};
ghost use Rattle.meaning.specs.Exchange.{as_stored, lacking, row_ahead_of_us};
ghost use Rattle.layout.specs.PointBlock.{form_1, encode_stored};
ghost use Rattle.layout.specs.Clocks.{decode_clock};
ghost use Rattle.layout.specs.Image.{image_length, decode_dots, encode_points, decode, good_image};
ghost use Rattle.layout.specs.Messages.{decode_ask, encode_reply};
ghost use Rattle.layout.specs.Calls.{over};
ghost use Rattle.dots.specs.Entries.{entry};
ghost use Rattle.replying.specs.Judged.{ask_judged};
ghost use Rattle.replying.specs.Nearest.{all_crew, lacks, with_key, closer, nearest};
ghost use Rattle.replying.specs.Sent.{sent_points, reply_of};

use block::Kind;
use numbers::{Controller, Dot, Key, Point};
use refusal::Refusal;
use row::Row;

// ---- judging, on the lent bytes alone

// 9: a base above ours, or a set bit that stands for a counter above it: bit j stands for counter b+1+j, so those from ours - b on.
fn row_ahead(r: Row, base: u32) -> bool
    ensures { result ≡ ltb base (highest r) }
{
    let named = r.base;
    let bits = r.bits;
    if base < named {
        return true;
    }
    let by = base - named;
    if 64 <= by {
        return false;
    }
    bits >> by != 0
}

// 9: "message names, in a .. clock row, an own counter above our base: our history is lost"
pub fn ahead_of_us(image: &[u8], rows: &[u8]) -> bool
    requires { (length image.now ≡ image_length) × (good_image image.now ≡ true) × (length rows.now ≡ 96) }
    ensures { result ≡ row_ahead_of_us (decode image.now) (decode_clock rows.now) }
{
    let own = head::own_of(&image[0..512]);
    let ours = parts::row_at(&image[16..112], own);
    row_ahead(parts::row_at(rows, own), ours.base)
}

// 6: ".. or addressee not us"
pub fn is_for_us(image: &[u8], message: &[u8]) -> bool
    requires { (length image.now ≡ image_length) × (length message.now ≡ 512) }
    ensures { result ≡ same_controller (decode_ask message.now).addressee (decode image.now).own }
{
    let own = head::own_of(&image[0..512]);
    greeting::addressee_of(message) == own
}

// The first refusal from 3 on that applies to the ask.
pub fn judge_ask(image: &[u8], message: &[u8]) -> Result<(), Refusal>
    requires { (length image.now ≡ image_length) × (good_image image.now ≡ true) × (length message.now ≡ 512) }
    ensures { result ≡ verdict_of (ask_judged message.now (decode image.now) true) }
{
    if !block::is_sealed(message) {
        return Err(Refusal::WrongCheck);
    }
    if !greeting::greeting_laid_out(message, Kind::Ask, 0) {
        return Err(Refusal::IllFormed);
    }
    if !greeting::ask_formed(message, &image[8..16]) {
        return Err(Refusal::IllFormed);
    }
    if !exchange::other_peer(image, greeting::sender_of(message)) {
        return Err(Refusal::NotPeer);
    }
    if !is_for_us(image, message) {
        return Err(Refusal::NotPeer);
    }
    if ahead_of_us(image, &message[8..104]) {
        return Err(Refusal::HistoryLost);
    }
    Ok(())
}

// ---- the points that the asker lacks, one after the other

// A listed dot that the asker's row lacks, of a job that it holds. Our own row has every listed dot, and its controller, who holds the job, is a
// peer of all other holders.
fn lacks(table: &[u8], asker: Controller, rows: &[u8], d: Dot, k: Key) -> bool
    requires { (length table.now ≡ 8) × Crew asker × (length rows.now ≡ 96) × Crew d.who }
    ensures { result ≡ lacks table.now asker (decode_clock rows.now) (record { dot = d; key = k }) }
{
    if parts::in_clock(rows, d) {
        return false;
    }
    parts::holds(table, asker, k.job)
}

// The nearer of two points behind the last one that was sent.
fn closer(last: Key, best: Option<Key>, k: Key) -> Option<Key>
    ensures { result ≡ closer last best k }
{
    if !last.before(k) {
        return best;
    }
    match best {
        None => Some(k),
        Some(b) => {
            if k.before(b) {
                return Some(k);
            }
            Some(b)
        }
    }
}

// The same with entry i of a list, where the asker lacks its dot.
fn with_entry(
    list: &[u8],
    i: usize,
    table: &[u8],
    asker: Controller,
    rows: &[u8],
    last: Key,
    best: Option<Key>,
) -> Option<Key>
    requires { (length list.now ≡ 512) × (field list.now 4 2 ≤ 60) × (i < field list.now 4 2) × (all_crew (decode_dots list.now) ≡ true) × (length table.now ≡ 8) × Crew asker × (length rows.now ≡ 96) }
    ensures { result ≡ with_key (lacks table.now asker (decode_clock rows.now)) last best (entry list.now i) }
{
    let k = dots::entry_key(list, i);
    if !lacks(table, asker, rows, dots::entry_dot(list, i), k) {
        return best;
    }
    closer(last, best, k)
}

// The same with all entries of a list.
fn smallest_after(
    list: &[u8],
    table: &[u8],
    asker: Controller,
    rows: &[u8],
    last: Key,
    start: Option<Key>,
) -> Option<Key>
    requires { (length list.now ≡ 512) × (field list.now 4 2 ≤ 60) × (all_crew (decode_dots list.now) ≡ true) × (length table.now ≡ 8) × Crew asker × (length rows.now ≡ 96) }
    ensures { result ≡ nearest last start (keep (lacks table.now asker (decode_clock rows.now)) (decode_dots list.now)) }
{
    let count = dots::entry_count(list) as usize;
    let mut best = start;
    for i in 0..count {
        best = with_entry(list, i, table, asker, rows, last, best);
    }
    best
}

// "each dot in our row n that the asker's row lacks is looked up in the lists": the first point behind the last one, over both lists.
fn next_key(image: &[u8], message: &[u8], last: Key) -> Option<Key>
    requires { (length image.now ≡ image_length) × (good_image image.now ≡ true) × (length message.now ≡ 512) × Crew (decode_ask message.now).sender }
    ensures { result ≡ nearest last None (lacking (decode image.now) (decode_ask message.now)) }
{
    let asker = greeting::sender_of(message);
    let best = smallest_after(
        &image[512..1024],
        &image[8..16],
        asker,
        &message[8..104],
        last,
        None,
    );
    smallest_after(
        &image[1024..1536],
        &image[8..16],
        asker,
        &message[8..104],
        last,
        best,
    )
}

// ---- writing the reply

// "as stored. A point with no stored record is sent with no version and an empty context."
fn write_point(image: &[u8], count: usize, k: Key, position: u16, out: &mut [u8])
    requires { (length image.now ≡ image_length) × (good_image image.now ≡ true) × (count ≡ length (decode image.now).points) × (length out.old ≡ 512) }
    ensures { out.new ≡ encode_stored form_1 position (as_stored (decode image.now) k) }
{
    image_edits::fetch(image, count, k, Kind::Point, Controller(0), out);
    record_edits::renumber(out, position);
}

// "Each point found whose job the asker holds is sent once": in blocks 1, 2 and so on, and what lies behind them keeps its bytes. How many.
fn write_points(image: &[u8], message: &[u8], out: &mut [u8]) -> u16
    requires { (length image.now ≡ image_length) × (good_image image.now ≡ true) × (length message.now ≡ 512) × Crew (decode_ask message.now).sender × (61952 ≤ length out.old) }
    ensures { (result ≡ length (sent_points (decode image.now) (decode_ask message.now)))
        × (out.new ≡ splice out.old 512 (512 * length (sent_points (decode image.now) (decode_ask message.now))) (encode_points 1 (sent_points (decode image.now) (decode_ask message.now)))) }
{
    let count = image::stored_count(image);
    let mut last = Key {
        job: 0,
        point: Point(0),
    };
    let mut sent: usize = 0;
    while let Some(k) = next_key(image, message, last) {
        let at = 512 + 512 * sent;
        write_point(image, count, k, (1 + sent) as u16, &mut out[at..at + 512]);
        last = k;
        sent += 1;
    }
    sent as u16
}

// "A reply is its head, then kind 3 blocks": how many points were sent.
pub fn write_reply(image: &[u8], message: &[u8], out: &mut [u8]) -> u32
    requires { (length image.now ≡ image_length) × (good_image image.now ≡ true) × (length message.now ≡ 512) × Crew (decode_ask message.now).sender × (61952 ≤ length out.old) }
    ensures { (result ≡ length (sent_points (decode image.now) (decode_ask message.now)))
        × (out.new ≡ over (encode_reply (reply_of (decode image.now) (decode_ask message.now))) out.old) }
{
    let sent = write_points(image, message, out);
    greeting::write_greeting(
        &mut out[0..512],
        Kind::ReplyHead,
        head::own_of(&image[0..512]),
        greeting::sender_of(message),
        sent,
        &image[16..112],
    );
    sent as u32
}
