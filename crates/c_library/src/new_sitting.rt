//! A resume on a new sitting.
ghost use Rattle.c_library.specs.NewSittings.{NewResumed};
ghost use Rattle.answers.specs.Targets.{lent_target};

use answers::Target;
use boards::CountBoard;
use nets::ChainedNet;
use refusals::Refusal;
use sittings::Sitting;

/// Makes the sitting, resumes the tally on it and lets it go.
pub(crate) fn resume_new(
    file: &[u8],
    counts: &[u32],
    spare: u32,
    tally: &[u16],
    target: Target<'_>,
    order: &mut [u16],
) -> Result<usize, Refusal>
    ensures { NewResumed file.now counts.now spare tally.now (lent_target target.entry) order.old result order.new }
{
    let net = ChainedNet::try_from(file)?;
    let mut board = CountBoard::new();
    board.load(counts, spare)?;
    let mut sitting = Sitting::new(net, board);
    sitting.resume(tally, target, order)
}
