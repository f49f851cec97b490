// Bench lines (document 01) for C, in an archive of their own: records as text in, what the program `bench` prints out. For runs
// against the source. A unit has no use for them, and in one archive with its calls they would cost each packet a copy of the
// state (docs/SPEED.md). `capi_bench_c` exports the function, and `embed/wegrulsta_bench.h` declares it.
#![tactic(auto)]

ghost use Rattle.std.specs.Prelude.{length};
ghost use Rattle.octets.specs.Octets.{Put};
ghost use Rattle.records.specs.Bench.{run_octets};

// Runs bench lines from the default state. What the program `bench` prints for them stands at the front of out; how many octets
// that is. Where less than 512 octets are left for an answer, the run ends.
pub fn wegrulsta_bench(input: &[u8], out: &mut [u8]) -> usize
    ensures { Put out.old 0 (run_octets (length out.old) input.now) result out.new }
{
    records::run(input, out)
}
