ghost use Rattle.std.specs.Prelude.{◌≡◌, ◌<◌, ◌-◌, ◌/◌, length, take, drop};
ghost use Rattle.key_index.specs.Hash.{mixed, hash_from, hash_of};

// 2^64 divided by the golden ratio: a factor whose products spread over all bits.
const FACTOR: u64 = 11_400_714_819_323_198_485;

// How many bytes of a long key count from its front, and from its end.
const COUNTED: usize = 32;

/// The hash of a key: 32 bits that depend on each of its bytes, and of one longer than 64 bytes on the first
/// and on the last 32. So a hash takes constant time, whatever keys a stranger chooses.
#[tactic(auto, unfolding(crate::specs::Hash::hash_of))]
pub(crate) fn key_hash(key: &str) -> u32
    ensures { result ≡ hash_of key.now }
{
    let bytes = key.as_bytes();
    if bytes.len() <= 2 * COUNTED {
        return upper_half(hash_from(0, bytes));
    }
    let (front, end) = ends(bytes);
    upper_half(hash_from(hash_from(0, front), end))
}

// The bytes that count of a long key.
fn ends(bytes: &[u8]) -> (&[u8], &[u8])
    requires { 64 < length bytes.now }
    ensures front { result.0.now ≡ take 32 bytes.now }
    ensures end { result.1.now ≡ drop (length bytes.now - 32) bytes.now }
{
    let (front, _) = bytes.split_at(COUNTED);
    let (_, end) = bytes.split_at(bytes.len() - COUNTED);
    (front, end)
}

// The hash of bytes that follow others of this hash.
fn hash_from(before: u64, bytes: &[u8]) -> u64
    ensures { result ≡ hash_from before bytes.now }
{
    let mut hash = before;
    for byte in bytes {
        hash = mix(hash, *byte);
    }
    hash
}

// The upper 32 bits.
fn upper_half(hash: u64) -> u32
    ensures { result ≡ hash / 4294967296 }
{
    (hash / 4_294_967_296) as u32
}

// The hash with one byte more.
fn mix(hash: u64, byte: u8) -> u64
    ensures { result ≡ mixed hash byte }
{
    hash.wrapping_add(u64::from(byte)).wrapping_mul(FACTOR)
}
