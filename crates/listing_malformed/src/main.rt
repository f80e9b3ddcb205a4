// The listing program, on a description whose third operand has an unknown kind.
#![tactic(auto)]

fn main() {
    listing_run::run();
}
