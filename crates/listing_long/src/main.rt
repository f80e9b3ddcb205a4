// The listing program, on a text of 400 bytes.
#![tactic(auto)]

fn main() {
    listing_run::run();
}
