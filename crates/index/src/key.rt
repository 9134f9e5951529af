// The key: a mixing of the eight words with wrapping arithmetic, reduced to a place of the index.
ghost use Rattle.std.specs.Prelude.{◌≡◌, ◌*◌, ◌<◌, ◌≤◌};
ghost use Rattle.index.specs.Key.{mixed, home};

// A word times a constant.
fn times(x: u32, c: u32) -> u64
    ensures { result ≡ x * c }
{
    (x as u64) * (c as u64)
}

// The mixing of the eight words.
fn key(r: [u32; 8]) -> u64
    ensures { result ≡ mixed r }
{
    let a = times(r[0], 2654435769).wrapping_add(times(r[1], 2246822519));
    let b = times(r[2], 3266489917).wrapping_add(times(r[3], 668265263));
    let c = times(r[4], 374761393).wrapping_add(times(r[5], 2870177450));
    let d = times(r[6], 1640531535).wrapping_add(times(r[7], 3432918353));
    a.wrapping_add(b).wrapping_add(c.wrapping_add(d))
}

// The place of these words among n.
pub(crate) fn home_of(n: u32, r: [u32; 8]) -> usize
    requires { 0 < n }
    ensures is { result ≡ home n r }
    ensures below { result < n }
{
    let x = key(r) % 4294967296;
    (x * (n as u64) / 4294967296) as usize
}
