// The call of `capi_bench` for C, in an archive of its own: it hands its arguments on and promises the same.
// `embed/wegrulsta_bench.h` declares it.
#![tactic(auto)]

ghost use Rattle.std.specs.Prelude.{length};
ghost use Rattle.octets.specs.Octets.{Put};
ghost use Rattle.records.specs.Bench.{run_octets};

// Runs bench lines from the default state. What the program `bench` prints for them stands at the front of out; how many octets
// that is. Where less than 512 octets are left for an answer, the run ends.
#[unsafe(no_mangle)]
pub extern "C" fn wegrulsta_bench(input: &[u8], out: &mut [u8]) -> usize
    ensures { Put out.old 0 (run_octets (length out.old) input.now) result out.new }
{
    capi_bench::wegrulsta_bench(input, out)
}
