// A list by index, of whatever values: past the end a value of the caller's is read, and nothing is stored.
ghost use Rattle.std.specs.Prelude.{◌≡◌, get_or, set};

pub fn get_or<T: Copy>(list: &[T], at: usize, or: T) -> T
    ensures { result ≡ get_or list.now at or }
{
    if at < list.len() { list[at] } else { or }
}

pub fn set<T: Copy>(list: &mut [T], at: usize, value: T)
    ensures { list.new ≡ set list.old at value }
{
    if at < list.len() {
        list[at] = value;
    }
}
