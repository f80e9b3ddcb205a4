// The listing program: it reads, loops over the parts of the listing and writes. What it prints is decided in `listing_text`.
#![tactic(auto)]

ghost use Rattle.std.specs.Prelude.{◌≡◌};

// The file descriptors of the standard streams.
const STDIN: i32 = 0;

const STDOUT: i32 = 1;

// Room for some lines; one line fits always.
const TEXT: usize = 4096;

// No contract can say what is read or written. Nothing is lent, and nothing is answered.
pub fn run()
    ensures { result ≡ tt }
{
    let mut input = [0u8; listing_text::INPUT];
    let n = io::read_full(STDIN, &mut input);
    let all = &input[..n];
    let mut text = [0u8; TEXT];
    let mut part = listing_text::first_part();
    while part.full {
        let next = listing_text::list_input(all, part.next, &mut text);
        let bytes = next.bytes;
        io::write_all(STDOUT, &text[..bytes]);
        part = next;
    }
}
