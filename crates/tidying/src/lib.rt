// The end of a repair, in the lent bytes: the watermark raised, and then the removal of the listed dots that all know.
#![tactic(auto)]

ghost use Rattle.std.specs.Prelude.{◌≡◌, true, false, not, ◌≤◌, ◌<◌, length, get_or};
ghost use Rattle.numbers.specs.Words.{keep};
ghost use Rattle.numbers.specs.Numbers.{Crew, same_controller};
ghost use Rattle.meaning.specs.Exchange.{raised, tidied};
ghost use Rattle.layout.specs.Clocks.{decode_clock};
ghost use Rattle.layout.specs.Image.{image_length, decode, decode_marks};
ghost use Rattle.dots.specs.Entries.{no_entry};
ghost use Rattle.dots.specs.Lists.{list_block};
ghost use Rattle.image_edits.specs.Edits.{Canonical, list_of, with_list};
ghost use Rattle.replying.specs.Nearest.{all_crew};
ghost use Rattle.tidying.specs.Tidied.{said_by, with_marks, raised_to, raised_about, known_to, dot_known, known_now, without_known};

use dots::DotList;
use numbers::{Controller, Dot};

// ---- "The watermark for the sender (rows of our peers) and our own (all rows) is raised."

// The mark of m for n is raised to a base where it is lower.
fn raise_mark(image: &mut [u8], m: Controller, n: Controller, base: u32)
    requires { (length image.old ≡ image_length) × Canonical image.old × Crew m × Crew n }
    ensures { (decode image.new ≡ with_marks (decode image.old) (raised_to (decode image.old).watermark m n base)) × Canonical image.new }
{
    if base <= head::mark_at(&image[112..368], m, n) {
        return;
    }
    image_edits::set_mark(image, m, n, base);
}

// The marks for n: our own by our row, and the sender's by its row, where n is a peer of ours.
fn raise_about(image: &mut [u8], sender: Controller, n: Controller, rows: &[u8])
    requires { (length image.old ≡ image_length) × Canonical image.old × Crew sender × Crew n × (length rows.now ≡ 96) × Crew (decode image.old).own × (same_controller sender (decode image.old).own ≡ false) }
    ensures { (decode image.new ≡ with_marks (decode image.old) (raised_about (decode image.old) (said_by sender (decode_clock rows.now)) n)) × Canonical image.new }
{
    let own = head::own_of(&image[0..512]);
    let ours = parts::row_at(&image[16..112], n);
    raise_mark(image, own, n, ours.base);
    if !head::peers(&image[8..16], own, n) {
        return;
    }
    let theirs = parts::row_at(rows, n);
    raise_mark(image, sender, n, theirs.base);
}

// The marks for each of the eight.
fn raise_marks(image: &mut [u8], sender: Controller, rows: &[u8])
    requires { (length image.old ≡ image_length) × Canonical image.old × Crew sender × (length rows.now ≡ 96) × Crew (decode image.old).own × (same_controller sender (decode image.old).own ≡ false) }
    ensures { (decode image.new ≡ with_marks (decode image.old) (raised (decode image.old) (said_by sender (decode_clock rows.now)))) × Canonical image.new }
{
    for n in 1..9 {
        raise_about(image, sender, Controller(n), rows);
    }
}

// ---- "Then a listed dot (n,c) goes when the watermark of every peer m of n has n at c or more."

// One controller knows the dot, or is no peer of its controller.
fn known_to(table: &[u8], marks: &[u8], d: Dot, m: Controller) -> bool
    requires { (length table.now ≡ 8) × (length marks.now ≡ 256) × Crew d.who × Crew m }
    ensures { result ≡ known_to table.now (decode_marks marks.now) d m }
{
    if !head::peers(table, d.who, m) {
        return true;
    }
    d.count.0 <= head::mark_at(marks, m, d.who)
}

// Every peer knows it.
fn known_to_all(table: &[u8], marks: &[u8], d: Dot) -> bool
    requires { (length table.now ≡ 8) × (length marks.now ≡ 256) × Crew d.who }
    ensures { result ≡ dot_known table.now (decode_marks marks.now) d }
{
    (1..9).all(|m| known_to(table, marks, d, Controller(m)))
}

// The same of the i-th dot of a list.
fn entry_known(image: &[u8], list: DotList, i: usize) -> bool
    requires { (length image.now ≡ image_length) × Canonical image.now × (i < length (list_of (decode image.now) (list_block list))) × Crew (get_or (list_of (decode image.now) (list_block list)) i no_entry).dot.who }
    ensures { result ≡ known_now (decode image.now) (get_or (list_of (decode image.now) (list_block list)) i no_entry) }
{
    let at = 512 * list.block();
    let d = dots::entry_dot(&image[at..at + 512], i);
    known_to_all(&image[8..16], &image[112..368], d)
}

// The i-th dot of a list goes where all know it.
fn drop_entry(image: &mut [u8], list: DotList, i: usize)
    requires { (length image.old ≡ image_length) × Canonical image.old × (i < length (list_of (decode image.old) (list_block list))) × Crew (get_or (list_of (decode image.old) (list_block list)) i no_entry).dot.who }
    ensures { (decode image.new ≡ with_list (decode image.old) (list_block list) (without_known (decode image.old) (list_of (decode image.old) (list_block list)) i)) × Canonical image.new }
{
    if !entry_known(image, list, i) {
        return;
    }
    image_edits::remove_dot(image, list, i);
}

// The dots of a list that all know go, from the last to the first.
fn drop_known(image: &mut [u8], list: DotList)
    requires { (length image.old ≡ image_length) × Canonical image.old × (all_crew (list_of (decode image.old) (list_block list)) ≡ true) }
    ensures { (decode image.new ≡ with_list (decode image.old) (list_block list) (keep (λ l. not (known_now (decode image.old) l)) (list_of (decode image.old) (list_block list)))) × Canonical image.new }
{
    let at = 512 * list.block();
    let count = dots::entry_count(&image[at..at + 512]) as usize;
    for i in (0..count).rev() {
        drop_entry(image, list, i);
    }
}

// The end of a repair, whose results are stored: the watermark is raised by the sender's rows and by our own, and then the dots that all know go
// from both lists.
pub fn tidy(image: &mut [u8], sender: Controller, rows: &[u8])
    requires { (length image.old ≡ image_length) × Canonical image.old × Crew sender × (length rows.now ≡ 96) × Crew (decode image.old).own × (same_controller sender (decode image.old).own ≡ false)
        × (all_crew (decode image.old).own_dots ≡ true) × (all_crew (decode image.old).foreign_dots ≡ true) }
    ensures { (decode image.new ≡ tidied (decode image.old) (said_by sender (decode_clock rows.now))) × Canonical image.new }
{
    raise_marks(image, sender, rows);
    drop_known(image, DotList::Own);
    drop_known(image, DotList::Foreign);
}
