// Reads a program's input into a buffer.
ghost use Rattle.std.specs.Prelude.{◌≡◌, ◌≢◌, ◌<◌, ◌≤◌, length, take, vec_len, IfOk, IfErr, IfSome};
ghost use Rattle.std.specs.Io.KnownBytes.{Consumes, IsAtEnd};
ghost use Rattle.std.specs.IoError.{error_kind};
ghost use Rattle.std.specs.declared.io.ErrorKind.TheVariants.{Interrupted};

use std::alloc::Global;
use std::io;
use std::io::Read;

// Reads until the buffer is full or the input ends, and tells how much was read. Of a reader that tells its bytes
// these are its first ones, and no others are taken from it.
pub fn fill<R: Read>(input: &mut R, buffer: &mut [u8]) -> io::Result<usize>
    ensures within { IfOk result (λ n. n ≤ length buffer.old) }
    ensures bytes { IfOk result (λ n. Consumes (R.remaining input.old) (R.remaining input.new) (take n buffer.new)) }
    ensures whole { IfOk result (λ n. n < length buffer.old → IsAtEnd (R.remaining input.new)) }
{
    // A read may give fewer bytes than it is asked for, so their count is no index of a loop over the buffer.
    let mut count = 0;
    while count < buffer.len() {
        let more = input.read(&mut buffer[count..])?;
        if more == 0 {
            break;
        }
        count += more;
    }
    Ok(count)
}

// The input, up to so many bytes of it. They are read into that much room, made beforehand, so that a longer input takes
// no more; where there is no such room, or a read is interrupted, that is an error.
pub fn read_into_room<R: Read>(heap: Global, input: &mut R, most: usize) -> io::Result<Vec<u8>>
    ensures bound { IfOk result (λ v. vec_len v ≤ most) }
    ensures taken { IfOk result (λ v. Consumes (R.remaining input.old) (R.remaining input.new) v.items) }
    ensures bytes { IfOk result (λ v. IfSome (R.remaining input.old) (λ xs. v.items ≡ take most xs)) }
{
    let mut bytes = vec![in heap; 0u8; most]?;
    let count = fill(input, &mut bytes)?;
    bytes.truncate(count);
    Ok(bytes)
}

// The input, up to so many bytes of it, in room that grows with them: any bound may be given. An interrupted read is done
// again.
#[tactic(auto, using(crate::proofs::Limited::limited))]
pub fn read_at_most<R: Read>(heap: Global, input: &mut R, most: usize) -> io::Result<Vec<u8>>
    ensures bound { IfOk result (λ v. vec_len v ≤ most) }
    ensures bytes { IfOk result (λ v. IfSome (R.remaining input.old) (λ xs. v.items ≡ take most xs)) }
    ensures not_interrupted { IfErr result (λ e. error_kind e ≢ Interrupted) }
{
    let mut bytes = Vec::new(heap);
    input.take(most as u64).read_to_end(&mut bytes)?;
    // It has no more; but what bounds an unknown reader's bytes is no clause of `read_to_end`.
    bytes.truncate(most);
    Ok(bytes)
}
