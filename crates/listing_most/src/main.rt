// The listing program, on more code than is listed.
#![tactic(auto)]

fn main() {
    listing_run::run();
}
