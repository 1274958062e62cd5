// Bytes and words of a report, read into arrays, with zeros after them.
ghost use Rattle.std.specs.Prelude.{◌≡◌, ◌+◌, ◌≤◌, length, take, drop};
ghost use Rattle.report_witness.specs.Lead.{words_from, padded};

use slices::word_at;

// So many bytes from an offset on.
pub fn bytes_from(report: &[u8], from: usize, n: usize) -> [u8; 32]
    requires { (n ≤ 32) × (from + n ≤ length report.now) }
    ensures { result ≡ padded 32 (take n (drop from report.now)) }
{
    let mut bytes = [0u8; 32];
    bytes[..n].copy_from_slice(&report[from..from + n]);
    bytes
}

// So many words from an offset on.
pub fn words_from(report: &[u8], from: usize, n: usize) -> [u32; 96]
    requires { (n ≤ 96) × (from ≤ 16777216) }
    ensures { result ≡ padded 96 (words_from report.now from n) }
{
    let mut words = [0u32; 96];
    for i in 0..n {
        words[i] = word_at(report, from + 4 * i);
    }
    words
}
