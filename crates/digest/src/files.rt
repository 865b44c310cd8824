// Runs over VBK files: mostly good ones, some cut or with a byte changed.
use answers::Refusal;
use vbk::Run;

// Room for a file: a plane of at most 16 by 16, and records as far as they fit. What is put comes behind what is there.
#[derive(Drop)]
struct Room {
    bytes: [u8; 8192],
    end: usize,
}

impl Room {
    // Bytes, as far as there is room.
    fn put(&mut self, bytes: &[u8]) {
        for byte in bytes {
            if let Some(place) = self.bytes.get_mut(self.end) {
                *place = *byte;
                self.end += 1;
            }
        }
    }

    fn put8(&mut self, value: u64) {
        self.put(&[(value % 256) as u8]);
    }

    fn put16(&mut self, value: u64) {
        self.put(&((value % 65536) as u16).to_le_bytes());
    }

    fn put32(&mut self, value: u64) {
        self.put(&((value % 4294967296) as u32).to_le_bytes());
    }

    fn put_header(&mut self, depth: u64, width: u64, height: u64) {
        self.put(b"VBK");
        self.put16(1);
        self.put8(depth);
        self.put16(width);
        self.put16(height);
    }

    // The plane's samples.
    fn put_samples(&mut self, key: u64, count: u64, scale: u64) {
        for i in 0..count {
            self.put16(u64::from(draws::sample(draws::draw(key, i), scale)));
        }
    }

    fn put_tokens(&mut self, key: u64, count: usize) {
        let scale = draws::draw(key, 1) % 5;
        let dense = draws::density(draws::draw(key, 2));
        for i in 0..count as u64 {
            let r = draws::draw(key, i.wrapping_add(16));
            self.put32(draws::number(r, scale, dense).cast_unsigned());
        }
    }

    // Place, size, type and lossless byte of a record.
    fn put_head(&mut self, key: u64, size: u32) {
        self.put16(draws::draw(key, 2) % 20);
        self.put16(draws::draw(key, 3) % 20);
        self.put8(u64::from(size));
        self.put8(u64::from(draws::tx_type(draws::draw(key, 4), size)));
        let lossless = draws::lossless(draws::draw(key, 6), size);
        self.put8(flag(draws::draw(key, 5), lossless));
    }

    fn put_quantizer(&mut self, r: u64) {
        self.put16(i64::from(draws::quantizer(r)).cast_unsigned());
    }

    fn put_record(&mut self, key: u64) {
        let size = draws::size(draws::draw(key, 1));
        self.put_head(key, size);
        self.put_quantizer(draws::draw(key, 7));
        self.put_quantizer(draws::draw(key, 8));
        self.put_tokens(draws::draw(key, 9), draws::area(size));
    }

    // A good file but for what the draws choose.
    fn put_file(&mut self, key: u64) {
        let width = side(draws::draw(key, 1));
        let height = side(draws::draw(key, 2));
        let depth = u64::from(draws::depth(draws::draw(key, 3)));
        let count = draws::product(width, height);
        self.put_header(depth, width, height);
        self.put_samples(draws::draw(key, 4), count, draws::draw(key, 5) % 4);
        let records = draws::draw(key, 6);
        for i in 0..draws::draw(key, 7) % 6 {
            self.put_record(draws::draw(records, i));
        }
    }

    // Once in four a byte of the first 64 is another.
    fn spoil(&mut self, r: u64) {
        if r % 4 == 0 {
            self.bytes[(r / 4 % 64) as usize] = (r / 256 % 256) as u8;
        }
    }

    // Once in four the file is cut.
    fn shorten(&mut self, r: u64) {
        if r % 4 == 1 {
            self.end = self.end.min((r / 4 % 8192) as usize);
        }
    }

    fn drawn(key: u64) -> Room {
        let mut room = Room {
            bytes: [0; 8192],
            end: 0,
        };
        room.put_file(key);
        let r = draws::draw(key, 8);
        room.spoil(r);
        room.shorten(r);
        room
    }
}

// A width or height: 1 to 16, seldom 0 or more than a file may have.
pub fn side(r: u64) -> u64 {
    match r % 64 {
        0 => 0,
        1 => 4097,
        _ => r / 64 % 16 + 1,
    }
}

// A byte that is 0 or 1, seldom more.
pub fn flag(r: u64, lossless: bool) -> u64 {
    if r % 64 == 0 {
        return r / 64 % 256;
    }
    u64::from(lossless)
}

// What a run leaves, and its figures.
fn feed_run(digest: u64, outcome: Result<Run, Refusal>, samples: &[u16], answers: &[u8]) -> u64 {
    let figures = match outcome {
        Ok(run) => [
            0,
            u64::from(run.fields.depth),
            u64::from(run.fields.width),
            u64::from(run.fields.height),
            run.count as u64,
            run.touched as u64,
        ],
        Err(refusal) => [u64::from(u32::from(refusal)), 0, 0, 0, 0, 0],
    };
    let mut digest = digest;
    for figure in figures {
        digest = draws::feed(digest, figure);
    }
    draws::feed_list(draws::feed_list(digest, samples), answers)
}

// The run's figures and rooms, then its text.
fn ran(file: &[u8], digest: u64) -> u64 {
    let mut samples = [0u16; 4096];
    let mut answers = [0u8; 874];
    let mut out = streams::large_buffer();
    let run = vbk::replay(file, &mut samples, &mut answers);
    let fed = feed_run(digest, run, &samples, &answers);
    let length = vbk::blockrun(file, &mut samples, &mut answers, &mut out);
    draws::feed_list(fed, &out[..length])
}

pub fn run(key: u64, digest: u64) -> u64 {
    let room = Room::drawn(key);
    let count = draws::within(room.end, &room.bytes);
    ran(&room.bytes[..count], digest)
}
