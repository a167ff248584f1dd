//! Which groups give the same whatever groups ran before them.
ghost use Rattle.ds2_group_job.specs.IndependentGroups.{IndependentGroupsGive};

/// Groups of code that are independent at a grain give the same whatever groups ran before them, and so does `term`, whatever is taken for
/// locations and for what stands there.
pub fn independent_groups_give_whatever_ran<Location, Content>()
    ensures { IndependentGroupsGive Location Content }
{}
