//! A file or a folder for each library. Its first line says what it tests.
mod backups;
mod ballots;
mod closures;
mod consolidators;
mod entering;
mod holds;
mod links;
mod logs;
mod mails;
mod making;
mod moves;
mod packets;
mod reports;
mod routes;
mod snapshots;
mod still_walks;
mod tables;
