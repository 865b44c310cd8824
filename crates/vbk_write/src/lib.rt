// Writing a VBK file into a lent buffer. Everything is checked before the first byte is written.
#![tactic(auto)]

ghost use Rattle.std.specs.Prelude.{◌≡◌, false, ◌||◌, [], ◌∷◌, ◌+◌, ◌*◌, ◌≤◌, ◌<◌, ltb, length, get_or};
ghost use Rattle.whole.specs.Steps.{each};
ghost use Rattle.answers.specs.Answers.{number};
ghost use Rattle.answers.specs.Limits.{FILE_LIMIT};
ghost use Rattle.vbk_read.specs.Header.{bad_area};
ghost use Rattle.vbk_text.specs.Inner.{Room, Put};
ghost use Rattle.vbk_write.specs.Bytes.{one, two, four, joined};
ghost use Rattle.vbk_write.specs.Clip.{head_bytes, header_bytes, entry_bytes};
ghost use Rattle.vbk_write.specs.Lent.{Lent, Alike, tokens_from, tokens_before, entry_of};
ghost use Rattle.vbk_write.specs.Promises.{any_above, bad_lists, bad_counts, bad_total, answer_of, Wrote};
ghost use Rattle.vbk_write.specs.Inner.{file_length, told};

use answers::{Answer, Refusal};

// What is lent: the header's numbers, the samples, a list for each of a record's numbers, and all tokens.
#[derive(Clone, Copy)]
struct Lists<'a> {
    depth: u8,
    width: u16,
    height: u16,
    samples: &'a [u16],
    xs: &'a [u16],
    ys: &'a [u16],
    sizes: &'a [u8],
    tx_types: &'a [u8],
    lossless: &'a [u8],
    dcs: &'a [u16],
    acs: &'a [u16],
    counts: &'a [u32],
    tokens: &'a [i32],
}

// A number of four bytes as a count: `usize` has no `From` for it.
fn count32(x: u32) -> usize
    ensures { result ≡ x }
{
    x as usize
}

// Some number of the list is above `most`.
fn any_above(list: &[u8], most: u8) -> bool
    ensures { result ≡ any_above most list.now }
{
    list.iter().any(|n| most < *n)
}

// Some list of the records' numbers has another length than the first.
fn bad_lists(l: Lists) -> bool
    ensures { result ≡ bad_lists (told l.entry) }
{
    let n = l.xs.len();
    let lengths = [
        l.ys.len(),
        l.sizes.len(),
        l.tx_types.len(),
        l.lossless.len(),
        l.dcs.len(),
        l.acs.len(),
        l.counts.len(),
    ];
    lengths.iter().any(|m| *m != n)
}

// Some record does not bring its n0² tokens, or the counts do not add up to the tokens.
fn bad_counts(sizes: &[u8], counts: &[u32], tokens: usize) -> bool
    requires { (length sizes.now ≡ length counts.now) × (any_above 3 sizes.now ≡ false) }
    ensures { result ≡ (bad_counts sizes.now counts.now || bad_total counts.now tokens) }
{
    let mut total = 0;
    for i in 0..counts.len() {
        let size = u32::from(sizes[i]);
        let count = count32(counts[i]);
        if count != answers::area(size + 2) {
            return true;
        }
        if tokens - total < count {
            return true;
        }
        total += count;
    }
    total != tokens
}

// The length of a file.
fn file_length(samples: usize, records: usize, tokens: usize) -> usize
    requires { (samples ≤ 65535) × (records ≤ 65535) × (tokens ≤ 65535) }
    ensures { result ≡ file_length samples records tokens }
{
    10 + 2 * samples + 11 * records + 4 * tokens
}

// Width × height is not 1 to 4,096, or the file would be too long.
fn too_large(samples: usize, records: usize, tokens: usize) -> bool
    ensures { result ≡ (bad_area samples || ltb FILE_LIMIT (file_length samples records tokens)) }
{
    if vbk_read::bad_area(samples) {
        return true;
    }
    if answers::FILE_LIMIT < records {
        return true;
    }
    if answers::FILE_LIMIT < tokens {
        return true;
    }
    answers::FILE_LIMIT < file_length(samples, records, tokens)
}

// All checks, the lowest number first.
fn check(l: Lists, room: usize) -> Answer
    ensures { number result ≡ answer_of (told l.entry) room }
{
    let bits = u32::from(l.depth);
    if answers::bad_depth(bits) {
        return Err(Refusal::Depth);
    }
    if answers::retired(bits) {
        return Err(Refusal::Retired);
    }
    if any_above(l.sizes, 3) {
        return Err(Refusal::Size);
    }
    let area = vbk_read::plane_area(l.width, l.height);
    let samples = l.samples.len();
    if samples != area {
        return Err(Refusal::Length);
    }
    if bad_lists(l) {
        return Err(Refusal::Length);
    }
    let tokens = l.tokens.len();
    if bad_counts(l.sizes, l.counts, tokens) {
        return Err(Refusal::Length);
    }
    let records = l.xs.len();
    if too_large(area, records, tokens) {
        return Err(Refusal::TooLarge);
    }
    if any_above(l.lossless, 1) {
        return Err(Refusal::LosslessByte);
    }
    if room < file_length(area, records, tokens) {
        return Err(Refusal::Room);
    }
    Ok(())
}

// Bytes, one after another. Each function takes the place to write at and hands back the place past what it wrote, as those of `vbk_text` do.
fn put(out: &mut [u8], at: usize, bytes: &[u8]) -> usize
    requires { Room out.old at bytes.now }
    ensures { Put out.old at bytes.now result out.new }
{
    let end = at + bytes.len();
    out[at..end].copy_from_slice(bytes);
    end
}

// One byte.
fn put_u8(out: &mut [u8], at: usize, b: u8) -> usize
    requires { Room out.old at (one b) }
    ensures { Put out.old at (one b) result out.new }
{
    out[at] = b;
    at + 1
}

// Two bytes, the least first.
fn put_u16(out: &mut [u8], at: usize, x: u16) -> usize
    requires { Room out.old at (two x) }
    ensures { Put out.old at (two x) result out.new }
{
    put(out, at, &x.to_le_bytes())
}

// Four bytes, the least first, in two's complement.
fn put_i32(out: &mut [u8], at: usize, t: i32) -> usize
    requires { Room out.old at (four t) }
    ensures { Put out.old at (four t) result out.new }
{
    put(out, at, &t.to_le_bytes())
}

// The header before the samples, at the start of the buffer.
fn put_header(out: &mut [u8], depth: u8, width: u16, height: u16) -> usize
    requires { Room out.old 0 (header_bytes depth width height) }
    ensures { Put out.old 0 (header_bytes depth width height) result out.new }
{
    let a = put_u8(out, 0, b'V');
    let b = put_u8(out, a, b'B');
    let c = put_u8(out, b, b'K');
    let d = put_u16(out, c, 1);
    let e = put_u8(out, d, depth);
    let f = put_u16(out, e, width);
    put_u16(out, f, height)
}

// All samples.
fn put_samples(out: &mut [u8], at: usize, samples: &[u16]) -> usize
    requires { Room out.old at (joined two samples.now) }
    ensures { Put out.old at (joined two samples.now) result out.new }
{
    let mut place = at;
    for k in 0..samples.len() {
        place = put_u16(out, place, samples[k]);
    }
    place
}

// The seven numbers of a record before its tokens.
fn put_head(
    out: &mut [u8],
    at: usize,
    x: u16,
    y: u16,
    size: u8,
    tx_type: u8,
    lossless: u8,
    dc: u16,
    ac: u16,
) -> usize
    requires { Room out.old at (head_bytes x y size tx_type lossless dc ac) }
    ensures { Put out.old at (head_bytes x y size tx_type lossless dc ac) result out.new }
{
    let a = put_u16(out, at, x);
    let b = put_u16(out, a, y);
    let c = put_u8(out, b, size);
    let d = put_u8(out, c, tx_type);
    let e = put_u8(out, d, lossless);
    let f = put_u16(out, e, dc);
    put_u16(out, f, ac)
}

// `count` tokens from `from` on.
fn put_tokens(out: &mut [u8], at: usize, tokens: &[i32], from: usize, count: usize) -> usize
    requires { (from + count ≤ length tokens.now) × Room out.old at (joined four (tokens_from tokens.now from count)) }
    ensures { Put out.old at (joined four (tokens_from tokens.now from count)) result out.new }
{
    let mut place = at;
    for j in 0..count {
        let k = from + j;
        place = put_i32(out, place, tokens[k]);
    }
    place
}

// Record k, whose tokens are its count of them from `from` on.
fn put_record(out: &mut [u8], at: usize, l: Lists, k: usize, from: usize) -> usize
    requires { (k < length l.xs.now) × Alike (told l) × (from ≡ tokens_before l.counts.now k) × (from + get_or l.counts.now k 0 ≤ length l.tokens.now) × Room out.old at (entry_bytes (entry_of (told l) k)) }
    ensures { Put out.old at (entry_bytes (entry_of (told l.entry) k)) result out.new }
{
    let next = put_head(
        out,
        at,
        l.xs[k],
        l.ys[k],
        l.sizes[k],
        l.tx_types[k],
        l.lossless[k],
        l.dcs[k],
        l.acs[k],
    );
    put_tokens(out, next, l.tokens, from, count32(l.counts[k]))
}

// All records, each with its share of the tokens.
fn put_records(out: &mut [u8], at: usize, l: Lists) -> usize
    requires { Alike (told l) × (tokens_before l.counts.now (length l.counts.now) ≤ length l.tokens.now) × (length l.tokens.now ≤ FILE_LIMIT) × Room out.old at (each (length l.xs.now) (λ k. entry_bytes (entry_of (told l) k))) }
    ensures { Put out.old at (each (length l.entry.xs.now) (λ k. entry_bytes (entry_of (told l.entry) k))) result out.new }
{
    let mut place = at;
    let mut from = 0;
    for k in 0..l.xs.len() {
        place = put_record(out, place, l, k, from);
        from += count32(l.counts[k]);
    }
    place
}

// The file at the front of `out`: header, samples, and the records in the order given, record k with the next `counts[k]` of the tokens. How
// long it is, or the refusal.
pub fn vbk_write(
    depth: u8,
    width: u16,
    height: u16,
    samples: &[u16],
    xs: &[u16],
    ys: &[u16],
    sizes: &[u8],
    tx_types: &[u8],
    lossless: &[u8],
    dcs: &[u16],
    acs: &[u16],
    counts: &[u32],
    tokens: &[i32],
    out: &mut [u8],
) -> Result<usize, Refusal>
    ensures { Wrote (record { depth = depth; width = width; height = height; samples = samples.now; xs = xs.now; ys = ys.now; sizes = sizes.now; tx_types = tx_types.now; lossless = lossless.now; dcs = dcs.now; acs = acs.now; counts = counts.now; tokens = tokens.now }) out.old result out.new }
{
    let lists = Lists {
        depth,
        width,
        height,
        samples,
        xs,
        ys,
        sizes,
        tx_types,
        lossless,
        dcs,
        acs,
        counts,
        tokens,
    };
    check(lists, out.len())?;
    let a = put_header(out, depth, width, height);
    let b = put_samples(out, a, samples);
    Ok(put_records(out, b, lists))
}
