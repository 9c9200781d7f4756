// A record's call.
use sample::Record;

// A frame by its name in the sample.
pub type Frame = u8;

// The calls of the sample, with the frames and numbers that they are made with.
#[derive(Clone, Copy)]
pub enum Call {
    Fresh,
    Check,
    LenSurject(Frame),
    InSameSurject(Frame, Frame),
    Get(Frame),
    GetShared(Frame),
    Set(Frame, u64),
    SetShared(Frame, u64),
    Exchange([Frame; 4], [u64; 4]),
    InsertSurject(Frame, u64, u64),
    Insert(Frame, Frame, u64),
    Union(Frame, Frame),
    RemoveElement(Frame),
    RemoveShared(Frame),
    List(Frame),
    Drain(Frame),
    DrainAll,
    Clear,
    Compress(bool),
}

impl From<&Record> for Call {
    fn from(record: &Record) -> Self {
        let bytes = record.bytes;
        let frames = [bytes[1], bytes[2], bytes[3], bytes[4]];
        let numbers = [bytes[5], bytes[6], bytes[7], bytes[8]].map(u64::from);
        let [j, k, _, _] = frames;
        let [m, n, _, _] = numbers;
        match bytes[0] {
            0 => Call::Fresh,
            1 => Call::Check,
            2 => Call::LenSurject(j),
            3 => Call::InSameSurject(j, k),
            4 => Call::Get(j),
            5 => Call::GetShared(j),
            6 => Call::Set(j, m),
            7 => Call::SetShared(j, m),
            8 => Call::Exchange(frames, numbers),
            9 => Call::InsertSurject(j, m, n),
            10 => Call::Insert(j, k, m),
            11 => Call::Union(j, k),
            12 => Call::RemoveElement(j),
            13 => Call::RemoveShared(j),
            14 => Call::List(j),
            15 => Call::Drain(j),
            16 => Call::DrainAll,
            17 => Call::Clear,
            _ => Call::Compress(m == 1),
        }
    }
}
