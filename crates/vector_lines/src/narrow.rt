// The numbers of a line, which has them in 64 bits, as a function takes them.
pub fn low8(n: u64) -> u8 {
    (n % 256) as u8
}

pub fn low16(n: u64) -> u16 {
    (n % 65536) as u16
}
