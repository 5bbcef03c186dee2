//! Why a command is refused, and the line that says so.

ghost use Rattle.std.specs.Prelude.{◌≡◌, ◌+◌, ◌*◌, ◌≤◌, ◌++◌, [], length};
ghost use Rattle.std.specs.Fmt.{decimal};
ghost use Rattle.std.specs.List.{flat_map};
ghost use Rattle.arrayvec.specs.ArrayVec.{array_vec_len};
ghost use Rattle.tree_model.specs.Lines.{number_text, named_line, full_number, refusal_line};
ghost use Rattle.save_bytes.specs.PathFaults.{path_fault_number};

use arrayvec::ArrayVec;
use itoa::Buffer;
use save_bytes::PathFault;

/// What a tree has too little of.
#[derive(Clone, Copy, Debug, PartialEq, Eq)]
pub enum Full {
    Blocks,
    Dirs,
    Files,
}

/// Why a command is refused.
#[derive(Clone, Copy, Debug, PartialEq, Eq)]
pub enum Refusal {
    /// The text stands for no path.
    BadPath(PathFault),
    /// The path without its last name is no directory.
    NoParent,
    /// Nothing stands at the path.
    NotFound,
    /// A directory or a file stands there.
    Exists,
    /// The directory has children.
    NotEmpty,
    /// More is needed than there is.
    Full { kind: Full, need: u64, have: u64 },
    /// A byte that is needed was never written, or is spoilt: the topmost block at fault.
    Damaged { part: u8, level: u8, block: u64 },
    /// The command is none for this kind of tree, or what stands at the path is of the wrong kind.
    WrongKind,
    /// The path is that of the root.
    IsRoot,
    /// Memory was wanting.
    NoMemory,
    /// The tree is no more as it was when it was mounted.
    Changed,
}

/// Why a call on a tree fails: the command is refused, or the disk below failed.
#[derive(Clone, Copy, Debug, PartialEq, Eq)]
pub enum FsFault {
    Refused(Refusal),
    Disk,
}

impl Refusal {
    /// Replaces `out` by the refusal's line.
    pub fn write(&self, out: &mut ArrayVec<u8, 128>)
        ensures { out.new.items ≡ refusal_line self.now }
    {
        out.clear();
        match *self {
            Refusal::BadPath(fault) => put_line(out, b"BadPath", &[number_of_path_fault(fault)]),
            Refusal::NoParent => put_line(out, b"NoParent", &[]),
            Refusal::NotFound => put_line(out, b"NotFound", &[]),
            Refusal::Exists => put_line(out, b"Exists", &[]),
            Refusal::NotEmpty => put_line(out, b"NotEmpty", &[]),
            Refusal::Full { kind, need, have } => put_line(
                out,
                b"Full",
                &[number_of_full(kind), need, have],
            ),
            Refusal::Damaged { part, level, block } => {
                put_line(out, b"Damaged", &[u64::from(part), u64::from(level), block])
            }
            Refusal::WrongKind => put_line(out, b"WrongKind", &[]),
            Refusal::IsRoot => put_line(out, b"IsRoot", &[]),
            Refusal::NoMemory => put_line(out, b"NoMemory", &[]),
            Refusal::Changed => put_line(out, b"Changed", &[]),
        }
    }
}

fn number_of_full(kind: Full) -> u64
    ensures { result ≡ full_number kind }
{
    match kind {
        Full::Blocks => 1,
        Full::Dirs => 2,
        Full::Files => 3,
    }
}

fn number_of_path_fault(fault: PathFault) -> u64
    ensures { result ≡ path_fault_number fault }
{
    match fault {
        PathFault::Empty => 1,
        PathFault::NoSlash => 2,
        PathFault::EmptyName => 3,
        PathFault::LongName => 4,
        PathFault::BadEscape => 5,
        PathFault::TooDeep => 6,
    }
}

fn put(out: &mut ArrayVec<u8, 128>, bytes: &[u8])
    requires { array_vec_len out.old + length bytes.now ≤ 128 }
    ensures { out.new.items ≡ out.old.items ++ bytes.now }
{
    let _ = out.try_extend_from_slice(bytes);
}

// Adds a space and a number.
fn put_number(out: &mut ArrayVec<u8, 128>, n: u64)
    requires { array_vec_len out.old + 21 ≤ 128 }
    ensures text { out.new.items ≡ out.old.items ++ number_text n }
    ensures room { array_vec_len out.new ≤ array_vec_len out.old + 21 }
{
    let mut digits = Buffer::new();
    put(out, b" ");
    put(out, digits.format(n).as_bytes());
}

// Adds at most three numbers, each behind a space.
fn put_numbers(out: &mut ArrayVec<u8, 128>, numbers: &[u64])
    requires { array_vec_len out.old + 21 * length numbers.now ≤ 128 }
    ensures text { out.new.items ≡ out.old.items ++ flat_map number_text numbers.now }
    ensures room { array_vec_len out.new ≤ array_vec_len out.old + 21 * length numbers.now }
{
    for number in numbers {
        put_number(out, *number);
    }
}

// The line of a refusal that has this name and these numbers.
fn put_line(out: &mut ArrayVec<u8, 128>, name: &[u8], numbers: &[u64])
    requires empty { out.old.items ≡ [] }
    requires short { length name.now ≤ 20 }
    requires few { length numbers.now ≤ 3 }
    ensures { out.new.items ≡ named_line name.now numbers.now }
{
    put(out, b"refused ");
    put(out, name);
    put_numbers(out, numbers);
    put(out, b"\n");
}
