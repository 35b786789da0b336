// Packet numbers put to the front of a lent buffer, joined by commas.
ghost use Rattle.std.specs.Prelude.{◌≡◌, ◌+◌, ◌*◌, ◌≤◌, length, take, drop};
ghost use Rattle.text.specs.Text.{Front, PutAt};
ghost use Rattle.table.specs.Limits.{max_k, max_m};
ghost use Rattle.choices.specs.Choices.{Rising};
ghost use Rattle.sheet.specs.Printing.{after_commas, commaed, id_digits, room};

use table::Table;

// Puts the first k numbers but one, each after a comma.
fn put_others(out: &mut [u8], start: usize, ids: [u64; Table::SOURCES], k: usize) -> usize
    requires { (1 ≤ k) × (k ≤ max_k) × Rising 0 (max_k + max_m) (take k ids) × (start ≤ id_digits) × (room ≤ length out.old) }
    ensures { (result ≡ start + length (after_commas (drop 1 (take k ids)))) × (result ≤ max_k * (id_digits + 1)) × PutAt out.old start (after_commas (drop 1 (take k ids))) out.new }
{
    let mut end = start;
    for i in 1..k {
        let number = text::put_byte(out, end, b',');
        end = text::put_numeral(out, number, ids[i]);
    }
    end
}

// Puts the first k numbers, joined by commas, at the front.
pub fn put_ids(out: &mut [u8], ids: [u64; Table::SOURCES], k: usize) -> usize
    requires { (1 ≤ k) × (k ≤ max_k) × Rising 0 (max_k + max_m) (take k ids) × (room ≤ length out.old) }
    ensures { (result ≡ length (commaed (take k ids))) × (result ≤ max_k * (id_digits + 1)) × Front out.old (commaed (take k ids)) out.new }
{
    let end = text::put_numeral(out, 0, ids[0]);
    put_others(out, end, ids, k)
}
