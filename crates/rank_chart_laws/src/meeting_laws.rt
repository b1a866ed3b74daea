//! Laws of points that meet: how ranks find what they share, at the owners of vertices.
//!
//! Each function below does nothing: its contract is the law, and its proof is the law's.

ghost use Rattle.std.specs.Prelude.{◌≡◌, ℕ, List};
ghost use Rattle.sf_defs.specs.meeting.Meeting.{AreMet};
ghost use Rattle.rank_chart_laws.specs.meeting_laws.Sets.{RankChart, AreRankCharts, forest_of_sets};
ghost use Rattle.rank_chart_laws.specs.meeting_laws.Steps.{meeting_forest, all_keys, all_ids, joined_forest};

/// Where ranks meet with the packed sets as keys, and rank and place as ids, the ids that they get tell the forest of the points that
/// they share.
pub fn meeting_finds_the_shared_points()
    ensures { (charts : List RankChart) (met : List (List ℕ)) → AreRankCharts charts → AreMet (meeting_forest charts) (all_keys charts) (all_ids charts) met → joined_forest charts met ≡ forest_of_sets charts }
{}
