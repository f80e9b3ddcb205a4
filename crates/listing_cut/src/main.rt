// The listing program, on an input that ends inside the description.
#![tactic(auto)]

fn main() {
    listing_run::run();
}
