//! What holds of every frame, and of the sums in it. The functions here do nothing: their contracts
//! are the laws.
ghost use Rattle.udp_frames.specs.Damage.{WrittenIsRead, FlippedBitChangesSum, FlippedBitNeverForges};

use lane_checksum::sum_laws;

/// The receiver of a frame sees the sender and the data that were written.
pub fn written_is_read()
    ensures { WrittenIsRead }
{}

/// One flipped bit of a text moves the total of its words by a power of two, which is no multiple of 65535. So its
/// sum changes.
pub fn flipped_bit_changes_the_sum()
    ensures { FlippedBitChangesSum }
{
    sum_laws();
}

/// One flipped bit of a frame is refused, or changes nothing of what is read.
pub fn flipped_bit_never_forges()
    ensures { FlippedBitNeverForges }
{}
