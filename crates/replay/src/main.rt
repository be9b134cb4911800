// The replay program: a log on standard input, its answers on standard output.
#![tactic(auto)]

fn main(rt: HostRuntime) {
    stream::replay(&rt, &mut rt.stdin(), &mut rt.stdout());
}
