//! What no clause says of some crates, and no row of the program shows: each file is of the one that its name tells.
mod of_count_session;
mod of_cov_outside;
mod of_job_gen;
mod of_marks_file;
mod of_report_text;
