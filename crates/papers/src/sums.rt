// Sums of names and files, by which a desk knows what it has seen.

fn mixed(sum: u64, b: u8) -> u64 {
    sum % 4294967291 * 257 + u64::from(b)
}

pub fn sum_of(bytes: &[u8]) -> u64 {
    let mut sum = 1;
    for b in bytes {
        sum = mixed(sum, *b);
    }
    sum
}
