#![tactic(auto)]
// Where a plan and an image keep what: the only home of their places. A plan's records have theirs after 1, 2 and 3 (Laid); an image's are constants.
// What is known of a plan (48 bytes long, laid, accepted) stands as a clause of each function. Over a struct with a ghost field it would be no plainer: each `plan.now`
// of a clause became `plan.entry.bytes.now`, for `requires plan_value { plan_refusal plan.now ≡ 0 }`; where n and the first row come with the plan, oracle::table has one.
pub mod header;
pub mod image;
pub mod records;
pub mod run;
