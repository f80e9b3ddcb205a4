// The listing program, on description S and four bytes of code.
#![tactic(auto)]

fn main() {
    listing_run::run();
}
