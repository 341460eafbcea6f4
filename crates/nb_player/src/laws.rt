//! What holds of every script that is played. Each function here does nothing but to cite laws of the crates below: its contract is the law.

ghost use Rattle.nb_player.specs.Laws as law;

/// What a script sets up is lawful (`IsLawful` of `nb_simulator`), as a world needs it. That its merchants fit (`SellersFit`) is told where the world is made, and
/// by no law of scripts.
pub fn set_ups_are_lawful()
    ensures { law.SetUpsAreLawful }
{
    nb_book::laws::legal_under();
}

/// A world has one report.
pub fn one_report()
    ensures { law.OneReport }
{}
