// A place of a list, read or written, so that no function asks for room.
#![tactic(auto)]

ghost use Rattle.std.specs.Prelude.{◌≡◌, get_or, set};

// Past the list's end: the default.
pub fn at<T: Copy>(s: &[T], i: u32, default: T) -> T
    ensures { result ≡ get_or s.now i default }
{
    s.get(i as usize).copied().unwrap_or(default)
}

// Past the list's end: nothing.
pub fn put<T: Copy>(s: &mut [T], i: u32, v: T)
    ensures { s.new ≡ set s.old i v }
{
    let k = i as usize;
    if k < s.len() {
        s[k] = v;
    }
}
